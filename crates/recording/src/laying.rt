// The parts of a field, laid one behind the other on a page.
#![tactic(auto, using(text::specs::PageLaws::typed_append, crate::proofs::LayingLaws::typed_field, crate::proofs::RecordingLaws::length_words))]

ghost use Rattle.std.specs.Prelude.{◌≡◌, [], ◌∷◌, ◌++◌, ◌<◌, ◌≤◌, ◌^◌, length};
ghost use Rattle.octets.specs.Bytes.{spell};
ghost use Rattle.text.specs.Lent.{Writes};
ghost use Rattle.recording.specs.Recording.{field_bytes, time_bytes, duration_bytes, identity_bytes, context_bytes, state_bytes, mean_bytes, next_bytes, mechanism_byte};

use record::{Config, Context, NewState};
use text::Page;
use time::{Duration, Time};
use wire::Identity;

// Two bytes.
#[tactic(auto, using(crate::proofs::LayingLaws::typed_short))]
fn short(page: &mut Page, v: u16)
    ensures { Writes page.old (spell 2 v) page.new }
{
    page.copy(&v.to_be_bytes());
}

// Eight bytes.
#[tactic(auto, using(crate::proofs::LayingLaws::typed_long))]
pub(crate) fn long(page: &mut Page, v: u64)
    ensures { Writes page.old (spell 8 v) page.new }
{
    page.copy(&v.to_be_bytes());
}

// Tag and length.
pub(crate) fn heading(page: &mut Page, tag: u8, n: usize)
    requires { n < 2 ^ 16 }
    ensures { Writes page.old (tag ∷ spell 2 n) page.new }
{
    page.put(tag);
    // a field has fewer than 65536 bytes, which is proved: no From narrows
    short(page, n as u16);
}

fn identity(page: &mut Page, who: Identity)
    ensures { Writes page.old (identity_bytes who) page.new }
{
    long(page, who.clock);
    short(page, who.port);
}

// Field 1.
pub(crate) fn time(page: &mut Page, t: Time)
    ensures { Writes page.old (field_bytes 1 (time_bytes t)) page.new }
{
    heading(page, 1, 16);
    long(page, t.hi);
    long(page, t.lo);
}

// Field 2.
pub(crate) fn message(page: &mut Page, message: &[u8])
    requires { length message.now < 2 ^ 16 }
    ensures { Writes page.old (field_bytes 2 message.now) page.new }
{
    heading(page, 2, message.len());
    page.copy(message);
}

#[tactic(auto, using(crate::proofs::LayingLaws::length_spelled, crate::proofs::LayingLaws::length_asked), unfolding(crate::specs::Recording::context_bytes))]
// Four sizes, one for each type: each is promised by the bytes of its own type.
pub(crate) fn context_size(context: Context) -> usize
    ensures size { result ≡ length (context_bytes context) }
    ensures small { result ≤ 13 }
{
    match context {
        Context::Sync { .. } | Context::DelayReq { .. } | Context::PDelayReq { .. } => 3,
        Context::PDelayResp { .. } => 13,
    }
}

#[tactic(auto, using(text::specs::PageLaws::typed_append), unfolding(crate::specs::Recording::context_bytes))]
pub(crate) fn context(page: &mut Page, context: Context)
    ensures { Writes page.old (context_bytes context) page.new }
{
    match context {
        Context::Sync { id } => {
            page.put(0);
            short(page, id);
        }
        Context::DelayReq { id } => {
            page.put(1);
            short(page, id);
        }
        Context::PDelayReq { id } => {
            page.put(2);
            short(page, id);
        }
        Context::PDelayResp { id, requester } => {
            page.put(3);
            short(page, id);
            identity(page, requester);
        }
    }
}

#[tactic(auto, using(crate::proofs::LayingLaws::length_spelled, crate::proofs::RecordingLaws::length_identity), unfolding(crate::specs::Recording::state_bytes))]
pub(crate) fn state_size(state: NewState) -> usize
    ensures size { result ≡ length (state_bytes state) }
    ensures small { result ≤ 11 }
{
    match state {
        NewState::Listening | NewState::Master | NewState::Passive | NewState::Faulty => 1,
        NewState::Slave(_) => 11,
    }
}

#[tactic(auto, using(text::specs::PageLaws::typed_append), unfolding(crate::specs::Recording::state_bytes))]
pub(crate) fn state(page: &mut Page, state: NewState)
    ensures { Writes page.old (state_bytes state) page.new }
{
    match state {
        NewState::Listening => page.put(0),
        NewState::Master => page.put(1),
        NewState::Passive => page.put(2),
        NewState::Faulty => page.put(3),
        NewState::Slave(master) => {
            page.put(4);
            identity(page, master);
        }
    }
}

#[tactic(auto, using(crate::proofs::RecordingLaws::length_mean), unfolding(crate::specs::Recording::mean_bytes))]
pub(crate) fn mean_size(mean: Option<Duration>) -> usize
    ensures size { result ≡ length (mean_bytes mean) }
    ensures small { result ≤ 19 }
{
    mean.map_or(0, |_| 19)
}

#[tactic(auto, using(text::specs::PageLaws::typed_append, crate::proofs::LayingLaws::typed_field, crate::proofs::RecordingLaws::length_words), unfolding(crate::specs::Recording::mean_bytes))]
pub(crate) fn mean(page: &mut Page, mean: Option<Duration>)
    ensures { Writes page.old (mean_bytes mean) page.new }
{
    if let Some(d) = mean {
        heading(page, 5, 16);
        long(page, d.hi);
        long(page, d.lo);
    }
}

#[tactic(auto, using(crate::proofs::RecordingLaws::length_next), unfolding(crate::specs::Recording::next_bytes))]
pub(crate) fn next_size(next: Option<u64>) -> usize
    ensures size { result ≡ length (next_bytes next) }
    ensures small { result ≤ 11 }
{
    next.map_or(0, |_| 11)
}

#[tactic(auto, using(text::specs::PageLaws::typed_append, crate::proofs::LayingLaws::typed_field, crate::proofs::LayingLaws::length_spelled), unfolding(crate::specs::Recording::next_bytes))]
pub(crate) fn next(page: &mut Page, next: Option<u64>)
    ensures { Writes page.old (next_bytes next) page.new }
{
    if let Some(ns) = next {
        heading(page, 6, 8);
        long(page, ns);
    }
}

// The configuration's value.
pub(crate) fn config(page: &mut Page, config: Config)
    ensures { Writes page.old (identity_bytes config.identity ++ (spell 2 config.sdo ++ (config.domain ∷ config.minor ∷ mechanism_byte config.mechanism ∷ config.delay_interval ∷ config.sync_interval ∷ duration_bytes config.asymmetry))) page.new }
{
    identity(page, config.identity);
    short(page, config.sdo);
    page.put(config.domain);
    page.put(config.minor);
    // the mechanism's number, as the enum has it
    page.put(config.mechanism as u8);
    page.put(config.delay_interval);
    page.put(config.sync_interval);
    long(page, config.asymmetry.hi);
    long(page, config.asymmetry.lo);
}
