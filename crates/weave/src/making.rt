// A block: one to three sync exchanges, one request with its stamp and its answers, foreign traffic and filter answers. Each of
// these three stands in a run of its own; order mixes them.
ghost use Rattle.std.specs.Prelude.{◌≡◌, ◌+◌, ◌<◌, ◌≤◌, length};

use crate::chance::Chance;
use crate::events::{Exchange, Happening, Part, What};
use crate::row::Row;
use crate::says::Message;
use record::Mechanism;

// What no exchange of ours is part of: foreign traffic, a message that the port refuses, our answer to a stranger's peer request,
// and answers of the filter.
const OTHERS: [What; 16] = [
    What::Heard(Message::StrangersSyncTwoStep),
    What::Heard(Message::StrangersSync),
    What::Heard(Message::StrangersFollowUp),
    What::Heard(Message::StrangersDelayResp),
    What::Heard(Message::DelayRespToStranger),
    What::Heard(Message::PDelayRespTwoStepToStranger),
    What::Heard(Message::PDelayRespToStranger),
    What::Heard(Message::PDelayRespFollowUpToStranger),
    What::Heard(Message::StrangersPDelayReq),
    What::Heard(Message::SyncOneByte),
    What::Heard(Message::SyncCut),
    What::Heard(Message::SyncOfOtherDomain),
    What::Heard(Message::Announce),
    What::PDelayRespLeft,
    What::FilterAnswers,
    What::FilterAnswers,
];

// A sync exchange: of one step, or of two in either order.
fn sync_plan(chance: Chance) -> &'static [What]
    ensures { length result.now ≤ 2 }
{
    match chance.below(3) {
        0 => &[What::Heard(Message::Sync)],
        1 => &[
            What::Heard(Message::SyncTwoStep),
            What::Heard(Message::FollowUp),
        ],
        _ => &[
            What::Heard(Message::FollowUp),
            What::Heard(Message::SyncTwoStep),
        ],
    }
}

// An end-to-end request: its stamp and its DelayResp in either order.
fn delay_plan(chance: Chance) -> &'static [What]
    ensures { length result.now ≤ 4 }
{
    match chance.below(2) {
        0 => &[
            What::RequestDue,
            What::DelayReqLeft,
            What::Heard(Message::DelayResp),
        ],
        _ => &[
            What::RequestDue,
            What::Heard(Message::DelayResp),
            What::DelayReqLeft,
        ],
    }
}

// A peer request: its stamp before or behind the one answer, and before, behind or between two answers. The order of two answers
// is thrown when they come.
fn peer_plan(chance: Chance) -> &'static [What]
    ensures { length result.now ≤ 4 }
{
    let asked = chance.next().next().next();
    let left = asked.next().next().next();
    match (chance.below(5), asked.below(2), left.below(2)) {
        (0, _, _) => &[
            What::RequestDue,
            What::PDelayReqLeft,
            What::Heard(Message::PDelayResp),
        ],
        (1, _, _) => &[
            What::RequestDue,
            What::Heard(Message::PDelayResp),
            What::PDelayReqLeft,
        ],
        (2, _, 0) => &[
            What::RequestDue,
            What::PDelayReqLeft,
            What::Heard(Message::PDelayRespTwoStep),
            What::Heard(Message::PDelayRespFollowUp),
        ],
        (2, _, _) => &[
            What::RequestDue,
            What::PDelayReqLeft,
            What::Heard(Message::PDelayRespFollowUp),
            What::Heard(Message::PDelayRespTwoStep),
        ],
        (3, 0, _) => &[
            What::RequestDue,
            What::Heard(Message::PDelayRespTwoStep),
            What::Heard(Message::PDelayRespFollowUp),
            What::PDelayReqLeft,
        ],
        (3, _, _) => &[
            What::RequestDue,
            What::Heard(Message::PDelayRespFollowUp),
            What::Heard(Message::PDelayRespTwoStep),
            What::PDelayReqLeft,
        ],
        (_, 0, _) => &[
            What::RequestDue,
            What::Heard(Message::PDelayRespTwoStep),
            What::PDelayReqLeft,
            What::Heard(Message::PDelayRespFollowUp),
        ],
        _ => &[
            What::RequestDue,
            What::Heard(Message::PDelayRespFollowUp),
            What::PDelayReqLeft,
            What::Heard(Message::PDelayRespTwoStep),
        ],
    }
}

// An id at or shortly behind another, so that exchanges of both kinds and strangers often have the same one.
fn near(id: u16, chance: Chance) -> u16 {
    id.wrapping_add(chance.pick(&[0, 1, 2]))
}

#[derive(Clone, Copy)]
pub struct Block {
    pub events: Row,
    pub chance: Chance,
}

impl Block {
    // Around the id that the port's next request will take: at most six events of syncs, four of the request and twelve others.
    pub(crate) fn new(chance: Chance, mechanism: Mechanism, id: u16) -> Block
        ensures { result.events.count ≤ 22 }
    {
        let mut block = Block {
            events: Row::new(),
            chance,
        };
        block.add_syncs(id);
        block.add_request(mechanism, id);
        block.add_others(id);
        block
    }

    // One event more, behind the others.
    fn add(&mut self, what: What, part: Part, id: u16)
        requires { self.old.events.count < 24 }
        ensures { self.new.events.count ≡ self.old.events.count + 1 }
    {
        let first = self.chance.next();
        let seed = Chance {
            state: first.word(),
        };
        self.chance = first.next().next();
        let place = self.events.count;
        self.events.push(Happening {
            place,
            what,
            part,
            id,
            seed,
        });
    }

    // The events of a plan, the last of which ends an exchange.
    fn add_exchange(&mut self, exchange: Exchange, id: u16, plan: &[What])
        requires { self.old.events.count + length plan.now ≤ 24 }
        ensures { self.new.events.count ≡ self.old.events.count + length plan.now }
    {
        if let Some((end, opening)) = plan.split_last() {
            for what in opening {
                self.add(*what, Part::Opening(exchange), id);
            }
            self.add(*end, Part::End(exchange), id);
        }
    }

    // One to three sync exchanges.
    fn add_syncs(&mut self, id: u16)
        requires { self.old.events.count + 6 ≤ 24 }
        ensures { (self.old.events.count ≤ self.new.events.count) × (self.new.events.count ≤ self.old.events.count + 6) }
    {
        let more = self.chance.next().below(3);
        for _ in 0..more + 1 {
            let chance = self.chance;
            self.add_exchange(Exchange::Sync, near(id, chance), sync_plan(chance));
        }
    }

    // The request that the port is set up for, under the id that it will take, and what answers it.
    fn add_request(&mut self, mechanism: Mechanism, id: u16)
        requires { self.old.events.count + 4 ≤ 24 }
        ensures { (self.old.events.count ≤ self.new.events.count) × (self.new.events.count ≤ self.old.events.count + 4) }
    {
        match mechanism {
            Mechanism::EndToEnd => self.add_exchange(Exchange::Delay, id, delay_plan(self.chance)),
            Mechanism::Peer => self.add_exchange(Exchange::Peer, id, peer_plan(self.chance)),
        }
    }

    // Up to twelve events that no exchange of ours is part of.
    fn add_others(&mut self, id: u16)
        requires { self.old.events.count + 12 ≤ 24 }
        ensures { (self.old.events.count ≤ self.new.events.count) × (self.new.events.count ≤ self.old.events.count + 12) }
    {
        let n = self.chance.next().below(13);
        for _ in 0..n {
            let chance = self.chance;
            let what = chance.pick(&OTHERS);
            let part = match what {
                What::FilterAnswers => Part::Filter,
                _ => Part::Foreign,
            };
            self.add(what, part, near(id, chance));
        }
    }
}
