// Document 01's table: each message's type number, control byte and length, and what its body has.
ghost use Rattle.std.specs.Prelude.{◌≡◌};
ghost use Rattle.wire.specs.Layout.{Row, row, sdo_id, two_step, kind_of, type_of, timestamp_of, rest_in};

use crate::{Body, Header, Kind, MessageType, Rest};
use time::WireTimestamp;

// What a type number stands for.
impl From<u8> for Kind {
    ghost from_gives = { λ number kind. kind ≡ kind_of number };

    #[tactic(auto, unfolding(crate::specs::Layout::kind_of))]
    fn from(number: u8) -> Kind {
        match number {
            0 => Kind::Table(MessageType::Sync),
            1 => Kind::Table(MessageType::DelayReq),
            2 => Kind::Table(MessageType::PDelayReq),
            3 => Kind::Table(MessageType::PDelayResp),
            8 => Kind::Table(MessageType::FollowUp),
            9 => Kind::Table(MessageType::DelayResp),
            10 => Kind::Table(MessageType::PDelayRespFollowUp),
            11 => Kind::Host,
            12 => Kind::Host,
            13 => Kind::Host,
            _ => Kind::Reserved,
        }
    }
}

impl Header {
    // The sdo id that the two fields make up.
    #[tactic(auto, unfolding(crate::specs::Layout::sdo_id))]
    pub fn sdo_id(self) -> u16
        ensures { result ≡ sdo_id self }
    {
        u16::from_be_bytes([self.major_sdo, self.minor_sdo])
    }

    // Whether the time of this message follows in another.
    pub fn is_two_step(self) -> bool
        ensures { result ≡ two_step self }
    {
        let flags = self.flags;
        flags / 0x0200 % 2 == 1
    }
}

impl MessageType {
    // The number in the low half of byte 0, as the table's row has it: the layout of a header names it.
    pub fn number(self) -> u8
        ensures { result ≡ (row self).number }
    {
        match self {
            MessageType::Sync => 0,
            MessageType::DelayReq => 1,
            MessageType::PDelayReq => 2,
            MessageType::PDelayResp => 3,
            MessageType::FollowUp => 8,
            MessageType::DelayResp => 9,
            MessageType::PDelayRespFollowUp => 10,
        }
    }

    // The byte that is written as control.
    pub fn control(self) -> u8
        ensures { result ≡ (row self).control }
    {
        match self {
            MessageType::Sync => 0,
            MessageType::DelayReq => 1,
            MessageType::PDelayReq => 5,
            MessageType::PDelayResp => 5,
            MessageType::FollowUp => 2,
            MessageType::DelayResp => 3,
            MessageType::PDelayRespFollowUp => 5,
        }
    }

    // The length in bytes, header and body.
    pub fn length(self) -> u16
        ensures { result ≡ (row self).length }
    {
        match self {
            MessageType::Sync => 44,
            MessageType::DelayReq => 44,
            MessageType::PDelayReq => 54,
            MessageType::PDelayResp => 54,
            MessageType::FollowUp => 44,
            MessageType::DelayResp => 54,
            MessageType::PDelayRespFollowUp => 54,
        }
    }
}

impl Body {
    // Which message this is the body of.
    pub fn message_type(self) -> MessageType
        ensures { result ≡ type_of self }
    {
        match self {
            Body::Sync { origin: _ } => MessageType::Sync,
            Body::DelayReq { origin: _ } => MessageType::DelayReq,
            Body::PDelayReq { origin: _ } => MessageType::PDelayReq,
            Body::PDelayResp {
                request_receive: _,
                requester: _,
            } => MessageType::PDelayResp,
            Body::FollowUp { precise_origin: _ } => MessageType::FollowUp,
            Body::DelayResp {
                receive: _,
                requester: _,
            } => MessageType::DelayResp,
            Body::PDelayRespFollowUp {
                response_origin: _,
                requester: _,
            } => MessageType::PDelayRespFollowUp,
        }
    }

    // Its timestamp: each has one.
    pub fn timestamp(self) -> WireTimestamp
        ensures { result ≡ timestamp_of self }
    {
        match self {
            Body::Sync { origin } => origin,
            Body::DelayReq { origin } => origin,
            Body::PDelayReq { origin } => origin,
            Body::PDelayResp {
                request_receive,
                requester: _,
            } => request_receive,
            Body::FollowUp { precise_origin } => precise_origin,
            Body::DelayResp {
                receive,
                requester: _,
            } => receive,
            Body::PDelayRespFollowUp {
                response_origin,
                requester: _,
            } => response_origin,
        }
    }

    // What lies behind its timestamp.
    pub fn rest(self) -> Rest
        ensures { result ≡ rest_in self }
    {
        match self {
            Body::Sync { origin: _ } => Rest::Nothing,
            Body::DelayReq { origin: _ } => Rest::Nothing,
            Body::PDelayReq { origin: _ } => Rest::Reserved,
            Body::PDelayResp {
                request_receive: _,
                requester,
            } => Rest::Requester(requester),
            Body::FollowUp { precise_origin: _ } => Rest::Nothing,
            Body::DelayResp {
                receive: _,
                requester,
            } => Rest::Requester(requester),
            Body::PDelayRespFollowUp {
                response_origin: _,
                requester,
            } => Rest::Requester(requester),
        }
    }
}
