// The two orders in which a block is run.
ghost use Rattle.std.specs.Prelude.{◌≡◌, ◌≤◌, [], IsPermutation};
ghost use Rattle.weave.specs.Row.{happenings};
ghost use Rattle.weave.specs.Gathering.{IsGathered, gathered_of};

use crate::events::{Exchange, Happening, Part};
use crate::making::Block;
use crate::row::Row;

// The order as events come. An event is thrown from those that are left, and the first of its run comes next; so a run goes on by
// how much of it is left, and keeps its order.
pub(crate) fn woven(block: &Block) -> Row
    ensures { IsPermutation (happenings block.now.events) (happenings result) }
{
    let mut left = block.events;
    let mut chance = block.chance;
    let mut order = Row::new();
    for _ in 0..block.events.count {
        let events = left.as_slice();
        let thrown = chance.below(events.len());
        chance = chance.next();
        let run = events[thrown].part.run();
        let first = events.iter().position(|event| event.part.run() == run);
        order.push(left.remove(first.unwrap_or(thrown)));
    }
    order
}

// The gathered order: what has come of an exchange stands directly in front of its last event. What is part of no exchange comes
// out at once.
pub(crate) fn gathered(given: &Row) -> Row
    ensures value { happenings result ≡ gathered_of (happenings given.now) [] [] }
    ensures each_once { IsGathered (happenings given.now) (happenings result) }
    ensures count { result.count ≤ given.now.count }
{
    let mut order = Row::new();
    let mut syncs = Row::new();
    let mut request = Row::new();
    for event in given.as_slice() {
        match event.part {
            Part::Foreign | Part::Filter => order.push(*event),
            Part::Opening(Exchange::Sync) => syncs.push(*event),
            Part::Opening(_) => request.push(*event),
            Part::End(Exchange::Sync) => {
                order.append(&mut syncs);
                order.push(*event);
            }
            Part::End(_) => {
                order.append(&mut request);
                order.push(*event);
            }
        }
    }
    order
}

// In how many places two orders are not the same.
pub(crate) fn moved(a: &[Happening], b: &[Happening]) -> usize {
    a.iter().zip(b).filter(|(x, y)| x.place != y.place).count()
}
