// At most 24 events in a row, in places of its own: no memory is asked for.
ghost use Rattle.std.specs.Prelude.{◌≤◌};

use crate::chance::Chance;
use crate::events::{Happening, Part, What};

// What stands in the places that are not filled.
const NOTHING: Happening = Happening {
    place: 0,
    what: What::FilterAnswers,
    part: Part::Filter,
    id: 0,
    seed: Chance { state: 0 },
};

#[derive(Clone, Copy)]
pub struct Row {
    places: [Happening; 24],
    pub count: usize,
    ghost room: { count ≤ 24 },
}

impl Row {
    ghost use Rattle.std.specs.Prelude.{◌≡◌, ◌+◌, ◌<◌, [], ◌∷◌, ◌++◌, length, remove, slice_index_or};
    ghost use Rattle.weave.specs.Row.{happenings};

    pub(crate) fn new() -> Row
        ensures nothing { happenings result ≡ [] }
        ensures count { result.count ≡ 0 }
    {
        Row {
            places: [NOTHING; 24],
            count: 0,
        }
    }

    pub(crate) fn as_slice(&self) -> &[Happening]
        ensures value { result.now ≡ happenings self.now }
        ensures count { length result.now ≡ self.now.count }
    {
        &self.places[..self.count]
    }

    // One event more, behind the others.
    pub(crate) fn push(&mut self, event: Happening)
        requires { self.old.count < 24 }
        ensures value { happenings self.new ≡ happenings self.old ++ event ∷ [] }
        ensures count { self.new.count ≡ self.old.count + 1 }
    {
        self.places[self.count] = event;
        self.count += 1;
    }

    // The events of another row behind these, and none are left there.
    pub(crate) fn append(&mut self, other: &mut Row)
        requires { self.old.count + other.old.count ≤ 24 }
        ensures value { happenings self.new ≡ happenings self.old ++ happenings other.old }
        ensures count { self.new.count ≡ self.old.count + other.old.count }
        ensures emptied { happenings other.new ≡ [] }
        ensures emptied_count { other.new.count ≡ 0 }
    {
        for event in other.as_slice() {
            self.push(*event);
        }
        other.count = 0;
    }

    // The event at a place, taken out. Those behind it move up.
    pub(crate) fn remove(&mut self, at: usize) -> Happening
        requires { at < self.old.count }
        ensures taken { result ≡ slice_index_or (happenings self.old) at result }
        ensures value { happenings self.new ≡ remove (happenings self.old) at }
        ensures count { self.new.count + 1 ≡ self.old.count }
    {
        let taken = self.places[at];
        self.places.copy_within(at + 1..self.count, at);
        self.count -= 1;
        taken
    }
}
