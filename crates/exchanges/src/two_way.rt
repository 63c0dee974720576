// The sync and the delay exchange, each of a send and a receive time.
ghost use Rattle.std.specs.Prelude.{◌≡◌};
ghost use Rattle.rules.specs.Worked.{less_correction};
ghost use Rattle.rules.specs.Exchanges.{two_step_sync, one_step_sync, synced, followed_up, delay_answered, delay_stamped};

use record::{Exchange, Outcome};
use time::Time;
use wire::Header;

// A two-step Sync that was received at this time.
#[tactic(auto, unfolding(rules::specs::Exchanges::two_step_sync))]
fn two_step_sync(held: Exchange, sequence: u16, received: Time) -> Option<Exchange>
    ensures { result ≡ two_step_sync sequence received held }
{
    let receive = Some(received);
    match held {
        Exchange::Measuring {
            id,
            send,
            receive: None,
        } if id == sequence => Some(Exchange::Measuring { id, send, receive }),
        Exchange::Measuring { id, .. } if id == sequence => None,
        _ => Some(Exchange::Measuring {
            id: sequence,
            send: None,
            receive,
        }),
    }
}

// A one-step Sync: both times at once. An open exchange of its id keeps it out, even one that has no receive time.
#[tactic(auto, unfolding(rules::specs::Exchanges::one_step_sync))]
fn one_step_sync(held: Exchange, sequence: u16, origin: Time, received: Time) -> Option<Exchange>
    ensures { result ≡ one_step_sync sequence origin received held }
{
    match held {
        Exchange::Measuring { id, .. } if id == sequence => None,
        _ => Some(Exchange::Measuring {
            id: sequence,
            send: Some(origin),
            receive: Some(received),
        }),
    }
}

pub fn sync_received(
    held: Exchange,
    header: Header,
    origin: Time,
    received: Time,
) -> Option<Exchange>
    ensures { result ≡ synced header origin received held }
{
    let sequence = header.id;
    if header.is_two_step() {
        two_step_sync(held, sequence, received)
    } else {
        one_step_sync(held, sequence, origin, received)
    }
}

// A FollowUp, which brings the send time.
#[tactic(auto, unfolding(rules::specs::Exchanges::followed_up))]
pub fn followed_up(held: Exchange, sequence: u16, sent: Time) -> Option<Exchange>
    ensures { result ≡ followed_up sequence sent held }
{
    let send = Some(sent);
    match held {
        Exchange::Measuring {
            id,
            send: None,
            receive,
        } if id == sequence => Some(Exchange::Measuring { id, send, receive }),
        Exchange::Measuring { id, .. } if id == sequence => None,
        _ => Some(Exchange::Measuring {
            id: sequence,
            send,
            receive: None,
        }),
    }
}

// A DelayResp, which brings the receive time of the open request. The sum is worked out only where it is awaited; one that
// leaves its range is refused.
#[tactic(auto, unfolding(rules::specs::Exchanges::delay_answered, rules::specs::Worked::less_correction))]
pub fn delay_answered(
    held: Exchange,
    header: Header,
    timestamp: Time,
) -> Result<Option<Exchange>, Outcome>
    ensures { result ≡ delay_answered header.id (less_correction timestamp header) held }
{
    match held {
        Exchange::Measuring {
            id,
            send,
            receive: None,
        } if id == header.id => {
            let receive = timestamp.minus_correction(header.correction)?;
            Ok(Some(Exchange::Measuring {
                id,
                send,
                receive: Some(receive),
            }))
        }
        _ => Ok(None),
    }
}

// The stamp of a DelayReq, which brings the send time of the open request.
#[tactic(auto, unfolding(rules::specs::Exchanges::delay_stamped))]
pub fn delay_stamped(held: Exchange, sequence: u16, sent: Time) -> Option<Exchange>
    ensures { result ≡ delay_stamped sequence sent held }
{
    match held {
        Exchange::Measuring {
            id,
            send: None,
            receive,
        } if id == sequence => Some(Exchange::Measuring {
            id,
            send: Some(sent),
            receive,
        }),
        _ => None,
    }
}
