// The event log (document 01, 'Event log'): the field at the front of some bytes. A log is read by calling
// `front` on what is left of a window, again and again; nothing is copied, a message is lent.
#![tactic(auto)]

ghost use Rattle.std.specs.Prelude.{◌≡◌};
ghost use Rattle.event_log.specs.Told.{next_of};
ghost use Rattle.event_log.specs.Fields.{front_of};

mod events;
mod outer;
mod parts;

use record::{Config, Context, FilterUpdate, NewState};
use time::Time;

// An event as its field holds it. A message lies in the bytes that are read.
#[derive(Clone, Copy)]
pub enum Logged<'a> {
    Event { time: Time, message: &'a [u8] },
    General { message: &'a [u8] },
    Stamp { time: Time, context: Context },
    SyncTimer,
    DelayTimer { draw: u64 },
    FilterAnswer { update: FilterUpdate },
    SetState { state: NewState },
}

// What a whole outer field holds, if it is good.
#[derive(Clone, Copy)]
pub enum Field<'a> {
    Config(Config),
    Event(Logged<'a>),
}

// What stands at the front of some bytes: the configuration, a field of 36 bytes; an event, and its field's size in
// bytes; a part of a field, or nothing, where more is to come; the end; or what is no field.
#[derive(Clone, Copy)]
pub enum Next<'a> {
    Config(Config),
    Event { event: Logged<'a>, size: usize },
    More,
    End,
    Bad,
}

// The field at the front of s: first says that the configuration is due, last that nothing follows s.
// They stay bools: config_reads_back, event_reads_back and read_in_pieces speak of both as such.
#[tactic(auto, unfolding(crate::specs::Fields::front_of, crate::specs::Fields::none_of, crate::specs::Fields::cut_of), using(crate::proofs::FieldsLaws::number_one))]
pub fn front(first: bool, s: &[u8], last: bool) -> Next<'_>
    ensures { next_of result ≡ front_of first s.now last }
{
    let n = s.len();
    if n == 0 {
        return match (last, first) {
            (false, _) => Next::More,
            (true, false) => Next::End,
            (true, true) => Next::Bad,
        };
    }
    let stated = outer::stated(s);
    let size = 3 + stated;
    let tag = s[0];
    if n < size {
        if !last && outer::possible(first, tag, stated) {
            return Next::More;
        }
        return Next::Bad;
    }
    match outer::field(first, tag, &s[..size]) {
        Some(Field::Config(config)) => Next::Config(config),
        Some(Field::Event(event)) => Next::Event { event, size },
        None => Next::Bad,
    }
}
