// The record with one part replaced, what a port and a Slave begin with, and a state's number. Handlers change a record through
// these alone. There is a method for each part, since each has its own type and its own definition.
ghost use Rattle.std.specs.Prelude.{◌≡◌};
ghost use Rattle.record.specs.Record.{state_number, with_sync, with_delay, with_raw, slave_of, with_state, with_peer, with_mean, with_ids, with_slave, port_of};

use crate::{Config, Exchange, Ids, PeerState, Port, PortState, SlaveState};
use time::Duration;
use wire::Identity;

impl PortState {
    // The number that the event log has for each state: a contract of `lines` and is_master, is_faulty and is_slave of specs/ name it.
    pub fn number(self) -> u8
        ensures { result ≡ state_number self }
    {
        match self {
            PortState::Listening => 0,
            PortState::Master => 1,
            PortState::Passive => 2,
            PortState::Faulty => 3,
            PortState::Slave(_) => 4,
        }
    }
}

impl SlaveState {
    // A Slave of this master that has heard nothing yet.
    pub fn new(master: Identity) -> SlaveState
        ensures { result ≡ slave_of master }
    {
        SlaveState {
            master,
            sync: Exchange::Empty,
            delay: Exchange::Empty,
            raw: None,
        }
    }

    pub fn with_sync(mut self, sync: Exchange) -> SlaveState
        ensures { result ≡ with_sync self sync }
    {
        self.sync = sync;
        self
    }

    pub fn with_delay(mut self, delay: Exchange) -> SlaveState
        ensures { result ≡ with_delay self delay }
    {
        self.delay = delay;
        self
    }

    // Keeps the last raw sync offset.
    pub fn with_raw(mut self, raw: Duration) -> SlaveState
        ensures { result ≡ with_raw self raw }
    {
        self.raw = Some(raw);
        self
    }
}

impl Port {
    // A fresh port: Listening, with nothing stored and first ids.
    pub fn new(config: Config) -> Port
        ensures { result ≡ port_of config }
    {
        let ids = Ids {
            sync: 0,
            delay: 0,
            peer: 0,
        };
        Port {
            config,
            state: PortState::Listening,
            peer: PeerState::Empty,
            mean: None,
            ids,
        }
    }

    pub fn with_state(mut self, state: PortState) -> Port
        ensures { result ≡ with_state self state }
    {
        self.state = state;
        self
    }

    pub fn with_slave(self, slave: SlaveState) -> Port
        ensures { result ≡ with_slave self slave }
    {
        self.with_state(PortState::Slave(slave))
    }

    pub fn with_peer(mut self, peer: PeerState) -> Port
        ensures { result ≡ with_peer self peer }
    {
        self.peer = peer;
        self
    }

    // Stores the mean delay that the filter gave.
    pub fn with_mean(mut self, mean: Duration) -> Port
        ensures { result ≡ with_mean self mean }
    {
        self.mean = Some(mean);
        self
    }

    pub fn with_ids(mut self, ids: Ids) -> Port
        ensures { result ≡ with_ids self ids }
    {
        self.ids = ids;
        self
    }
}
