// Whether a header and a body make a message, each number with room in its place.
ghost use Rattle.std.specs.Prelude.{◌≡◌, ◌+◌, ◌&&◌, ◌++◌};
ghost use Rattle.time.specs.Units.{time_of_wire};
ghost use Rattle.octets.specs.Bytes.{roomy};
ghost use Rattle.wire.specs.Layout.{body, timestamp_entries, identity_entries, body_entries, timestamp_of};
ghost use Rattle.writing.specs.Writing.{is_time, fits_of};

use time::{Time, WireTimestamp};
use wire::{Body, Header, Identity};

// Whether each number of a timestamp has room in its place, and it reads as a time.
#[tactic(auto, using(crate::specs::WritingLaws::seconds_given), unfolding(octets::specs::Bytes::roomy, wire::specs::Layout::timestamp_entries))]
fn stamp_fits(w: WireTimestamp) -> bool
    ensures { result ≡ (roomy (timestamp_entries body w) && is_time (time_of_wire w)) }
{
    Time::of_wire(w).is_ok()
}

// The same with the requester's identity behind it.
fn answer_fits(w: WireTimestamp, who: Identity) -> bool
    ensures { result ≡ (roomy (timestamp_entries body w ++ identity_entries (body + 10) who) && is_time (time_of_wire w)) }
{
    stamp_fits(w)
}

// Whether each number of a body has room in its place, and its timestamp reads as a time.
fn body_fits(b: Body) -> bool
    ensures { result ≡ (roomy (body_entries body b) && is_time (time_of_wire (timestamp_of b))) }
{
    match b {
        Body::Sync { origin } => stamp_fits(origin),
        Body::DelayReq { origin } => stamp_fits(origin),
        Body::PDelayReq { origin } => stamp_fits(origin),
        Body::PDelayResp {
            request_receive,
            requester,
        } => answer_fits(request_receive, requester),
        Body::FollowUp { precise_origin } => stamp_fits(precise_origin),
        Body::DelayResp { receive, requester } => answer_fits(receive, requester),
        Body::PDelayRespFollowUp {
            response_origin,
            requester,
        } => answer_fits(response_origin, requester),
    }
}

// Whether a header goes with a body, and each number has room in its place. What the numbers'
// types say needs no test.
pub(crate) fn fits(h: Header, b: Body) -> bool
    ensures { result ≡ fits_of h b }
{
    let t = b.message_type();
    if h.version != 2 {
        return false;
    }
    if h.kind != t.number() {
        return false;
    }
    if h.length != t.length() {
        return false;
    }
    (h.major_sdo < 16) & (h.minor < 16) & body_fits(b)
}
