// PTP messages (document 01, 'Wire form'; IEEE 1588-2019, clause 13) as values, and the table of their types.
// What each byte of one means stands in specs/Layout. Crate reading reads them, crate writing writes them.
#![tactic(auto)]

pub mod fields;
mod types;

use time::WireTimestamp;

// A port identity: the clock's eight bytes as a number, and the port's number.
#[derive(Clone, Copy, Debug, PartialEq, Eq)]
pub struct Identity {
    pub clock: u64,
    pub port: u16,
}

// Every field of a header that is read. Numbers that share a byte have four bits there; the correction
// is the 64-bit word of the wire, the log interval its byte, both in two's complement.
#[derive(Clone, Copy)]
pub struct Header {
    pub major_sdo: u8,
    // four bits as they stand in the message, and no enum, since any can stand there: written_reads is over all of them
    pub kind: u8,
    pub minor: u8,
    pub version: u8,
    pub length: u16,
    pub domain: u8,
    pub minor_sdo: u8,
    pub flags: u16,
    pub correction: u64,
    pub source: Identity,
    pub id: u16,
    pub interval: u8,
}

// The messages of document 01's table.
#[derive(Clone, Copy)]
pub enum MessageType {
    Sync,
    DelayReq,
    PDelayReq,
    PDelayResp,
    FollowUp,
    DelayResp,
    PDelayRespFollowUp,
}

// What a type number stands for: a message of the table, one that is the host's, or none.
#[derive(Clone, Copy)]
pub enum Kind {
    Table(MessageType),
    Host,
    Reserved,
}

// What lies behind the header.
#[derive(Clone, Copy)]
pub enum Body {
    Sync {
        origin: WireTimestamp,
    },
    DelayReq {
        origin: WireTimestamp,
    },
    PDelayReq {
        origin: WireTimestamp,
    },
    PDelayResp {
        request_receive: WireTimestamp,
        requester: Identity,
    },
    FollowUp {
        precise_origin: WireTimestamp,
    },
    DelayResp {
        receive: WireTimestamp,
        requester: Identity,
    },
    PDelayRespFollowUp {
        response_origin: WireTimestamp,
        requester: Identity,
    },
}

// What lies behind the timestamp that each body begins with: one of three shapes, and so no Option.
#[derive(Clone, Copy)]
pub enum Rest {
    Nothing,
    Reserved,
    Requester(Identity),
}
