// The bodies, read where they stand in a message.
ghost use Rattle.std.specs.Prelude.{◌≡◌, ◌+◌, ◌≤◌, cond, ltb, length, Err};
ghost use Rattle.reading.specs.declared.ReadError.TheVariants.{Malformed};
ghost use Rattle.wire.specs.Layout.{row, header_of, body_of, timestamp_at, identity_at, body};
ghost use Rattle.reading.specs.Reading.{message_of};

use crate::{ReadError, Received};
use time::{Time, WireTimestamp};
use wire::{Body, Header, Identity, MessageType, fields};

fn requester_at(s: &[u8]) -> Identity
    requires { 54 ≤ length s.now }
    ensures { result ≡ identity_at (body + 10) s.now }
{
    fields::get_identity(s, 44)
}

// The body of a message whose timestamp was read already.
fn body_at(s: &[u8], t: MessageType, stamp: WireTimestamp) -> Body
    requires { ((row t).length ≤ length s.now) × (stamp ≡ timestamp_at body s.now) }
    ensures { result ≡ body_of t s.now }
{
    match t {
        MessageType::Sync => Body::Sync { origin: stamp },
        MessageType::DelayReq => Body::DelayReq { origin: stamp },
        MessageType::PDelayReq => Body::PDelayReq { origin: stamp },
        MessageType::PDelayResp => Body::PDelayResp {
            request_receive: stamp,
            requester: requester_at(s),
        },
        MessageType::FollowUp => Body::FollowUp {
            precise_origin: stamp,
        },
        MessageType::DelayResp => Body::DelayResp {
            receive: stamp,
            requester: requester_at(s),
        },
        MessageType::PDelayRespFollowUp => Body::PDelayRespFollowUp {
            response_origin: stamp,
            requester: requester_at(s),
        },
    }
}

// The message of a type, if its stated length is not short of the table's.
pub(crate) fn message_at(s: &[u8], t: MessageType, header: Header) -> Result<Received, ReadError>
    requires { (header ≡ header_of s.now) × (header.length ≤ length s.now) }
    ensures { result ≡ cond (ltb header.length (row t).length) (Err Malformed) (message_of t s.now) }
{
    let stated = header.length;
    if stated < t.length() {
        return Err(ReadError::Malformed);
    }
    let stamp = fields::get_timestamp(s, 34);
    match Time::of_wire(stamp) {
        Ok(time) => Ok(Received::Message {
            header,
            body: body_at(s, t, stamp),
            time,
        }),
        Err(_) => Err(ReadError::Malformed),
    }
}
