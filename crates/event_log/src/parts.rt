// Inner fields, and the values that they hold.
ghost use Rattle.std.specs.Prelude.{◌≡◌, ◌+◌, ◌≤◌, ◌<◌, length, take, drop};
ghost use Rattle.octets.specs.Bytes.{number};
ghost use Rattle.event_log.specs.Fields.{time_at, duration_at, inner_of, by_kind, context_at, by_number, state_at};
ghost use Rattle.event_log.specs.FieldsLaws.{Lies};

use record::{Context, NewState};
use time::{Duration, Time};
use wire::fields;

// A field's stated length.
pub(crate) fn length_at(s: &[u8], at: usize) -> usize
    requires { at + 2 ≤ length s.now }
    ensures { (result ≡ number at 2 s.now) × (result < 65536) }
{
    usize::from(octets::get_u16(s, at))
}

// The functions of this file ask that their bytes lie in the field that they are lent: bounds of private functions, each of its own
// size, which one test of the caller's answers for several at once.
#[tactic(auto, unfolding(crate::specs::Fields::time_at))]
pub(crate) fn time_at(f: &[u8], at: usize) -> Time
    requires { at + 16 ≤ length f.now }
    ensures { result ≡ time_at at f.now }
{
    Time {
        hi: octets::get_u64(f, at),
        lo: octets::get_u64(f, at + 8),
    }
}

#[tactic(auto, unfolding(crate::specs::Fields::duration_at))]
pub(crate) fn duration_at(f: &[u8], at: usize) -> Duration
    requires { at + 16 ≤ length f.now }
    ensures { result ≡ duration_at at f.now }
{
    Duration {
        hi: octets::get_u64(f, at),
        lo: octets::get_u64(f, at + 8),
    }
}

// The inner field at a place, if it has this tag and lies within f: where its value starts, and how long it is.
// No slice: the laws of where a field lies (inner_starts, inner_is, inner_other) speak of places.
#[tactic(auto, unfolding(crate::specs::Fields::inner_of))]
pub(crate) fn inner_at(f: &[u8], at: usize, tag: u8) -> Option<(usize, usize)>
    ensures found { result ≡ inner_of f.now at tag }
    ensures lies { Lies at (length f.now) result }
{
    let n = f.len();
    if n < 3 || n - 3 < at {
        return None;
    }
    let len = length_at(f, at + 1);
    let start = at + 3;
    if n - start < len {
        return None;
    }
    if octets::get_u8(f, at) == tag {
        return Some((start, len));
    }
    None
}

// The n bytes at a place.
pub(crate) fn bytes_at(f: &[u8], at: usize, n: usize) -> &[u8]
    requires { at + n ≤ length f.now }
    ensures { result.now ≡ take n (drop at f.now) }
{
    &f[at..at + n]
}

// Kinds 0 to 2. No TryFrom: a kind has its id beside it.
fn by_kind(kind: u8, id: u16) -> Option<Context>
    ensures { result ≡ by_kind kind id }
{
    match kind {
        0 => Some(Context::Sync { id }),
        1 => Some(Context::DelayReq { id }),
        2 => Some(Context::PDelayReq { id }),
        _ => None,
    }
}

// A context of n bytes: kind and id; for kind 3 an identity too.
#[tactic(auto, unfolding(crate::specs::Fields::context_at))]
pub(crate) fn context_at(f: &[u8], at: usize, n: usize) -> Option<Context>
    requires { at + n ≤ length f.now }
    ensures { result ≡ context_at at n f.now }
{
    if n == 3 {
        let kind = octets::get_u8(f, at);
        let id = octets::get_u16(f, at + 1);
        return by_kind(kind, id);
    }
    if n != 13 || octets::get_u8(f, at) != 3 {
        return None;
    }
    let id = octets::get_u16(f, at + 1);
    let requester = fields::get_identity(f, at + 3);
    Some(Context::PDelayResp { id, requester })
}

// States 0 to 3. No TryFrom: the type is another crate's, and 4 has its master behind it.
fn by_number(state: u8) -> Option<NewState>
    ensures { result ≡ by_number state }
{
    match state {
        0 => Some(NewState::Listening),
        1 => Some(NewState::Master),
        2 => Some(NewState::Passive),
        3 => Some(NewState::Faulty),
        _ => None,
    }
}

// A state of n bytes: its number; for Slave its master too.
#[tactic(auto, unfolding(crate::specs::Fields::state_at))]
pub(crate) fn state_at(f: &[u8], at: usize, n: usize) -> Option<NewState>
    requires { at + n ≤ length f.now }
    ensures { result ≡ state_at at n f.now }
{
    if n == 1 {
        return by_number(octets::get_u8(f, at));
    }
    if n != 11 || octets::get_u8(f, at) != 4 {
        return None;
    }
    let master = fields::get_identity(f, at + 1);
    Some(NewState::Slave(master))
}
