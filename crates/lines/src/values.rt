// Times, durations and identities as text, and a dash for what is not there.
#![tactic(auto, using(text::specs::PageLaws::typed_append))]

ghost use Rattle.std.specs.Prelude.{◌++◌};
ghost use Rattle.text.specs.Lent.{Writes};
ghost use Rattle.text.specs.Digits.{hex_in};
ghost use Rattle.lines.specs.Lines.{identity_text, maybe_time, maybe_duration, maybe_identity};

use text::Page;
use time::{Duration, Time};
use wire::Identity;

// Two words side by side.
fn words(page: &mut Page, hi: u64, lo: u64)
    ensures { Writes page.old (hex_in 16 hi ++ hex_in 16 lo) page.new }
{
    page.hex(16, hi);
    page.hex(16, lo);
}

pub(crate) fn identity(page: &mut Page, who: Identity)
    ensures { Writes page.old (identity_text who) page.new }
{
    page.hex(16, who.clock);
    page.hex(4, u64::from(who.port));
}

// Stay three, as maybe_time, maybe_duration and maybe_identity of specs/ are: one for all would take the text as a closure, with a contract
// that is longer than the arms that it saves.
#[tactic(auto, using(text::specs::PageLaws::typed_append), unfolding(crate::specs::Lines::maybe_time))]
pub(crate) fn maybe_time(page: &mut Page, t: Option<Time>)
    ensures { Writes page.old (maybe_time t) page.new }
{
    match t {
        None => page.put(b'-'),
        Some(t) => words(page, t.hi, t.lo),
    }
}

#[tactic(auto, using(text::specs::PageLaws::typed_append), unfolding(crate::specs::Lines::maybe_duration))]
pub(crate) fn maybe_duration(page: &mut Page, d: Option<Duration>)
    ensures { Writes page.old (maybe_duration d) page.new }
{
    match d {
        None => page.put(b'-'),
        Some(d) => words(page, d.hi, d.lo),
    }
}

#[tactic(auto, using(text::specs::PageLaws::typed_append), unfolding(crate::specs::Lines::maybe_identity))]
pub(crate) fn maybe_identity(page: &mut Page, who: Option<Identity>)
    ensures { Writes page.old (maybe_identity who) page.new }
{
    match who {
        None => page.put(b'-'),
        Some(who) => identity(page, who),
    }
}
