// The lines of `replay` and `trace`, written on a lent page. Where the page ends nothing more is written.
#![tactic(auto, using(text::specs::PageLaws::typed_append))]

ghost use Rattle.std.specs.Prelude.{◌∷◌, []};
ghost use Rattle.record.specs.Answers.{number_of, first_actions};
ghost use Rattle.text.specs.Lent.{Writes};
ghost use Rattle.text.specs.Digits.{decimal_of};
ghost use Rattle.lines.specs.Lines.{following, joined_by, maybe_duration, sent_text, reset_text, trace_texts, line_for, bad_line, last_line};

mod actions;
mod ending;
mod measured;
mod values;

use record::{Answer, Outcome, Port};
use text::Page;
use time::{Duration, Time};

// Which lines are written: document 01's, or those that show all of an answer.
#[derive(Clone, Copy)]
pub enum Style {
    Replay,
    Trace,
}

// What a line shows of a measurement: its letter, the raw (for P the halved) value, event time, offset and delay.
#[derive(Clone, Copy)]
pub struct Shown {
    // the letter as it is put on the line
    pub letter: u8,
    pub value: Option<Duration>,
    pub time: Option<Time>,
    pub offset: Option<Duration>,
    pub delay: Option<Duration>,
}

// Number, answer, letter, value.
fn heading(page: &mut Page, number: u64, outcome: Outcome, shown: Shown)
    ensures { Writes page.old (joined_by 32 (decimal_of number) (decimal_of (number_of outcome) ∷ (shown.letter ∷ []) ∷ maybe_duration shown.value ∷ [])) page.new }
{
    page.decimal(number);
    page.put(b' ');
    page.decimal(u64::from(outcome.number()));
    page.put(b' ');
    page.put(shown.letter);
    page.put(b' ');
    values::maybe_duration(page, shown.value);
}

fn sent_text(page: &mut Page, sent: &[u8])
    ensures { Writes page.old (sent_text sent.now) page.new }
{
    if sent.is_empty() {
        page.put(b'-');
    } else {
        page.bytes(sent);
    }
}

#[tactic(auto, unfolding(crate::specs::Lines::reset_text))]
fn reset_text(page: &mut Page, reset: bool)
    ensures { Writes page.old (reset_text reset) page.new }
{
    if reset {
        page.copy(b"reset");
    } else {
        page.put(b'-');
    }
}

// Event time, offset, delay, the packet, the actions, the reset.
fn details(page: &mut Page, shown: Shown, answer: Answer, sent: &[u8])
    ensures { Writes page.old (following 32 (trace_texts shown sent.now (first_actions answer.count answer.actions) answer.reset)) page.new }
{
    page.put(b' ');
    values::maybe_time(page, shown.time);
    page.put(b' ');
    values::maybe_duration(page, shown.offset);
    page.put(b' ');
    values::maybe_duration(page, shown.delay);
    page.put(b' ');
    sent_text(page, sent);
    page.put(b' ');
    actions::actions(page, answer);
    page.put(b' ');
    reset_text(page, answer.reset);
}

// Five parameters that only this line has together. The line of an event: its number, what was answered, and the bytes that were sent.
#[tactic(auto, using(text::specs::PageLaws::typed_append, crate::proofs::Texts::joined_append), unfolding(crate::specs::Lines::line_with))]
pub fn line(page: &mut Page, style: Style, number: u64, answer: Answer, sent: &[u8])
    ensures { Writes page.old (line_for style number answer sent.now) page.new }
{
    let shown = measured::shown(answer.measurement);
    heading(page, number, answer.outcome, shown);
    if let Style::Trace = style {
        details(page, shown, answer, sent);
    }
    page.put(b'\n');
}

// The line at a bad field.
#[tactic(auto, using(text::specs::PageLaws::typed_append), unfolding(crate::specs::Lines::bad_line))]
pub fn bad_line(page: &mut Page, offset: u64)
    ensures { Writes page.old (bad_line offset) page.new }
{
    page.copy(b"bad at ");
    page.decimal(offset);
    page.put(b'\n');
}

// What a good log ends with: the record, which only `trace` shows.
#[tactic(auto, unfolding(crate::specs::Lines::last_line))]
pub fn last_line(page: &mut Page, style: Style, port: Port)
    ensures { Writes page.old (last_line style port) page.new }
{
    if let Style::Trace = style {
        ending::end_line(page, port);
    }
}
