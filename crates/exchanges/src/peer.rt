// The peer exchange: the request's times, the response's, and who responded.
ghost use Rattle.std.specs.Prelude.{◌≡◌, cond, Some};
ghost use Rattle.wire.specs.Layout.{two_step};
ghost use Rattle.rules.specs.Worked.{less_correction, plus_correction};
ghost use Rattle.rules.specs.Exchanges.{another, peer_stamped, second_responder, responded, responded_later};

use record::{Outcome, PeerState};
use time::Time;
use wire::{Header, Identity};

// The stamp of a PDelayReq, which brings the send time of the open request.
#[tactic(auto, unfolding(rules::specs::Exchanges::peer_stamped))]
pub fn peer_stamped(held: PeerState, sequence: u16, sent: Time) -> Option<PeerState>
    ensures { result ≡ peer_stamped sequence sent held }
{
    match held {
        PeerState::Measuring {
            id,
            responder,
            request_send: None,
            request_receive,
            response_send,
            response_receive,
        } if id == sequence => Some(PeerState::Measuring {
            id,
            responder,
            request_send: Some(sent),
            request_receive,
            response_send,
            response_receive,
        }),
        _ => None,
    }
}

// Whether a responder is known, and the source is another.
#[tactic(auto, unfolding(record::specs::Same::same_identity))]
fn is_another(responder: Option<Identity>, source: Identity) -> bool
    ensures { result ≡ another responder source }
{
    responder.is_some_and(|known| known != source)
}

// Whether this is the answer of a second responder to the request, be it measured already or not.
#[tactic(auto, unfolding(rules::specs::Exchanges::second_responder))]
pub fn second_responder(held: PeerState, header: Header) -> bool
    ensures { result ≡ second_responder header held }
{
    let sequence = header.id;
    let source = header.source;
    match held {
        PeerState::Empty => false,
        PeerState::Measuring { id, responder, .. } => (id == sequence)
            & is_another(responder, source),
        PeerState::Measured { id, responder } => {
            (id == sequence) & is_another(Some(responder), source)
        }
    }
}

// The response send time once the response is there: a one-step response brings it, and it is the request's receive time.
fn response_left(header: Header, request_receive: Time, response_send: Option<Time>) -> Option<Time>
    ensures { result ≡ cond (two_step header) response_send (Some request_receive) }
{
    if header.is_two_step() {
        response_send
    } else {
        Some(request_receive)
    }
}

// A PDelayResp, received at this time: it brings two times, or three of a one-step response. The sum is worked out only
// where it is awaited; one that leaves its range is refused.
#[tactic(auto, unfolding(rules::specs::Exchanges::responded, rules::specs::Worked::less_correction))]
pub fn peer_responded(
    held: PeerState,
    header: Header,
    body: Time,
    received: Time,
) -> Result<Option<PeerState>, Outcome>
    ensures { result ≡ responded header body (less_correction received header) held }
{
    match held {
        PeerState::Measuring {
            id,
            responder: _,
            request_send,
            request_receive: _,
            response_send,
            response_receive: None,
        } if id == header.id => {
            let came = received.minus_correction(header.correction)?;
            Ok(Some(PeerState::Measuring {
                id,
                responder: Some(header.source),
                request_send,
                request_receive: Some(body),
                response_send: response_left(header, body, response_send),
                response_receive: Some(came),
            }))
        }
        _ => Ok(None),
    }
}

// A PDelayRespFollowUp, which brings the response send time. The sum is worked out only where it is awaited; one that
// leaves its range is refused.
#[tactic(auto, unfolding(rules::specs::Exchanges::responded_later, rules::specs::Worked::plus_correction))]
pub fn peer_responded_later(
    held: PeerState,
    header: Header,
    timestamp: Time,
) -> Result<Option<PeerState>, Outcome>
    ensures { result ≡ responded_later header (plus_correction timestamp header) held }
{
    match held {
        PeerState::Measuring {
            id,
            responder: _,
            request_send,
            request_receive,
            response_send: None,
            response_receive,
        } if id == header.id => {
            let left = timestamp.plus_correction(header.correction)?;
            Ok(Some(PeerState::Measuring {
                id,
                responder: Some(header.source),
                request_send,
                request_receive,
                response_send: Some(left),
                response_receive,
            }))
        }
        _ => Ok(None),
    }
}
