// The seven events: the inner fields of each, one behind the other and nothing else. A field is given with its tag
// and length, so the first inner field stands at place 3.
ghost use Rattle.std.specs.Prelude.{◌≡◌};
ghost use Rattle.event_log.specs.Told.{held, told};
ghost use Rattle.event_log.specs.Fields.{ends, event_of, general_of, stamp_of, sync_timer_of, delay_timer_of, update_of, filter_of, set_state_of};

use crate::{Field, Logged, parts};
use record::FilterUpdate;
use time::Duration;

// A message has no more bytes than this.
const LONGEST: usize = 1024;

// The event, if nothing stands behind this place.
fn ending<'a>(f: &[u8], at: usize, event: Logged<'a>) -> Option<Field<'a>>
    ensures { held result ≡ ends f.now at (told event.entry) }
{
    if at == f.len() {
        return Some(Field::Event(event));
    }
    None
}

// 0x10: time, message.
#[tactic(auto, unfolding(crate::specs::Fields::event_of))]
pub(crate) fn event(f: &[u8]) -> Option<Field<'_>>
    ensures { held result ≡ event_of f.now }
{
    let Some((a, 16)) = parts::inner_at(f, 3, 1) else {
        return None;
    };
    let (start, len) = parts::inner_at(f, a + 16, 2)?;
    if len > LONGEST {
        return None;
    }
    let time = parts::time_at(f, a);
    let message = parts::bytes_at(f, start, len);
    ending(f, start + len, Logged::Event { time, message })
}

// 0x11: message.
#[tactic(auto, unfolding(crate::specs::Fields::general_of))]
pub(crate) fn general(f: &[u8]) -> Option<Field<'_>>
    ensures { held result ≡ general_of f.now }
{
    let (start, len) = parts::inner_at(f, 3, 2)?;
    if len > LONGEST {
        return None;
    }
    let message = parts::bytes_at(f, start, len);
    ending(f, start + len, Logged::General { message })
}

// 0x12: time, context.
#[tactic(auto, unfolding(crate::specs::Fields::stamp_of))]
pub(crate) fn stamp(f: &[u8]) -> Option<Field<'_>>
    ensures { held result ≡ stamp_of f.now }
{
    let Some((a, 16)) = parts::inner_at(f, 3, 1) else {
        return None;
    };
    let (b, m) = parts::inner_at(f, a + 16, 3)?;
    if b + m != f.len() {
        return None;
    }
    let time = parts::time_at(f, a);
    let context = parts::context_at(f, b, m)?;
    Some(Field::Event(Logged::Stamp { time, context }))
}

// 0x13: nothing.
#[tactic(auto, unfolding(crate::specs::Fields::sync_timer_of))]
pub(crate) fn sync_timer(f: &[u8]) -> Option<Field<'_>>
    ensures { held result ≡ sync_timer_of f.now }
{
    ending(f, 3, Logged::SyncTimer)
}

// 0x14: draw.
#[tactic(auto, unfolding(crate::specs::Fields::delay_timer_of))]
pub(crate) fn delay_timer(f: &[u8]) -> Option<Field<'_>>
    ensures { held result ≡ delay_timer_of f.now }
{
    let Some((a, 8)) = parts::inner_at(f, 3, 4) else {
        return None;
    };
    let draw = octets::get_u64(f, a);
    ending(f, a + 8, Logged::DelayTimer { draw })
}

// Perhaps a next update, and nothing behind it.
#[tactic(auto, unfolding(crate::specs::Fields::update_of))]
fn update(f: &[u8], at: usize, mean_delay: Option<Duration>) -> Option<Field<'_>>
    ensures { held result ≡ update_of f.now at mean_delay }
{
    match parts::inner_at(f, at, 6) {
        None => {
            let update = FilterUpdate {
                mean_delay,
                next_update: None,
            };
            ending(f, at, Logged::FilterAnswer { update })
        }
        Some((b, 8)) => {
            let update = FilterUpdate {
                mean_delay,
                next_update: Some(octets::get_u64(f, b)),
            };
            ending(f, b + 8, Logged::FilterAnswer { update })
        }
        Some(_) => None,
    }
}

// 0x15: perhaps a mean delay, perhaps a next update.
#[tactic(auto, unfolding(crate::specs::Fields::filter_of))]
pub(crate) fn filter(f: &[u8]) -> Option<Field<'_>>
    ensures { held result ≡ filter_of f.now }
{
    match parts::inner_at(f, 3, 5) {
        None => update(f, 3, None),
        Some((a, 16)) => update(f, a + 16, Some(parts::duration_at(f, a))),
        Some(_) => None,
    }
}

// 0x16: state.
#[tactic(auto, unfolding(crate::specs::Fields::set_state_of))]
pub(crate) fn set_state(f: &[u8]) -> Option<Field<'_>>
    ensures { held result ≡ set_state_of f.now }
{
    let (b, n) = parts::inner_at(f, 3, 7)?;
    if b + n != f.len() {
        return None;
    }
    let state = parts::state_at(f, b, n)?;
    Some(Field::Event(Logged::SetState { state }))
}
