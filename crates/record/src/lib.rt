// The port record, the small types of its events, and its answer (document 01, 'Numbers the port answers' and
// 'What each event does'). Every value goes in and comes out by value. The types can hold what row 2 of the
// table calls unfit, so that it can be answered.
#![tactic(auto)]

mod answers;
pub mod equality;
mod parts;
pub mod sequence;

use time::{Duration, Time};
use wire::Identity;

// A sync or a delay exchange, with the times that it holds. No Option: Empty is the record's own word, which the rules speak of.
#[derive(Clone, Copy, PartialEq, Eq)]
pub enum Exchange {
    Empty,
    Measuring {
        id: u16,
        send: Option<Time>,
        receive: Option<Time>,
    },
}

// What the port keeps only as Slave. raw is the last raw sync offset.
#[derive(Clone, Copy, PartialEq, Eq)]
pub struct SlaveState {
    pub master: Identity,
    pub sync: Exchange,
    pub delay: Exchange,
    pub raw: Option<Duration>,
}

#[derive(Clone, Copy, PartialEq, Eq)]
pub enum PortState {
    Listening,
    Master,
    Passive,
    Faulty,
    Slave(SlaveState),
}

// The peer exchange, which every state has: three cases, and so no Option.
#[derive(Clone, Copy, PartialEq, Eq)]
pub enum PeerState {
    Empty,
    Measuring {
        id: u16,
        responder: Option<Identity>,
        request_send: Option<Time>,
        request_receive: Option<Time>,
        response_send: Option<Time>,
        response_receive: Option<Time>,
    },
    Measured {
        id: u16,
        responder: Identity,
    },
}

#[derive(Clone, Copy, PartialEq, Eq)]
pub enum Mechanism {
    EndToEnd,
    Peer,
}

// What a port is set up with. An interval is a byte in two's complement, as on the wire.
#[derive(Clone, Copy, PartialEq, Eq)]
pub struct Config {
    pub identity: Identity,
    pub sdo: u16,
    pub domain: u8,
    pub minor: u8,
    pub mechanism: Mechanism,
    pub delay_interval: u8,
    pub sync_interval: u8,
    pub asymmetry: Duration,
}

// The ids that the next message of each kind takes.
#[derive(Clone, Copy, PartialEq, Eq)]
pub struct Ids {
    pub sync: u16,
    pub delay: u16,
    pub peer: u16,
}

// The record. mean is the mean delay that the filter last gave.
#[derive(Clone, Copy, PartialEq, Eq)]
pub struct Port {
    pub config: Config,
    pub state: PortState,
    pub peer: PeerState,
    pub mean: Option<Duration>,
    pub ids: Ids,
}

// ---- events

// What a send stamp belongs to.
#[derive(Clone, Copy)]
pub enum Context {
    Sync { id: u16 },
    DelayReq { id: u16 },
    PDelayReq { id: u16 },
    PDelayResp { id: u16, requester: Identity },
}

// The state that the host sets; Slave with its master.
#[derive(Clone, Copy)]
pub enum NewState {
    Listening,
    Master,
    Passive,
    Faulty,
    Slave(Identity),
}

// What the filter answers to a measurement.
#[derive(Clone, Copy)]
pub struct FilterUpdate {
    pub mean_delay: Option<Duration>,
    pub next_update: Option<u64>,
}

// ---- answers

// A case for each row of the table.
#[derive(Clone, Copy, PartialEq, Eq)]
pub enum Outcome {
    Taken,
    Buffer,
    Unfit,
    Limits,
    Version,
    Malformed,
    Foreign,
    Host,
    Range,
}

// raw is what the times alone say; offset and delay need what was kept before.
#[derive(Clone, Copy)]
pub enum Measurement {
    Sync {
        event_time: Time,
        raw: Duration,
        offset: Option<Duration>,
    },
    Delay {
        event_time: Time,
        raw: Duration,
        delay: Option<Duration>,
    },
    Peer {
        event_time: Time,
        delay: Duration,
    },
}

// What the host has to do. Timers are in nanoseconds; a packet is what the buffer begins with.
#[derive(Clone, Copy)]
pub enum Action {
    None,
    ResetSyncTimer { ns: u64 },
    ResetDelayRequestTimer { ns: u64 },
    ResetFilterUpdateTimer { ns: u64 },
    SendEvent { context: Context, link_local: bool },
    SendGeneral { link_local: bool },
}

#[derive(Clone, Copy)]
pub struct Todo {
    pub action: Action,
}

// A flat answer, which is the form that the port's hosts were given: the outcome beside the parts, and an array of two small structs that
// hold an action, with a count (answer_of, places and first_actions of specs/ speak of them). The first count places hold the actions, in
// their order; the others hold the empty one.
#[derive(Clone, Copy)]
pub struct Answer {
    pub outcome: Outcome,
    pub port: Port,
    pub measurement: Option<Measurement>,
    pub length: usize,
    pub actions: [Todo; 2],
    pub count: u8,
    // whether the filter is reset, with or without a measurement: a part of the answer by itself
    pub reset: bool,
}
