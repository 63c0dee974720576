// What happens to the port, as small values: a block of events is kept while it is run twice.
use crate::chance::Chance;
use crate::says::Message;
use record::Outcome;

// An exchange of ours, and so what is measured at its end: an offset, a delay or a peer's delay.
#[derive(Clone, Copy, PartialEq, Eq)]
pub enum Exchange {
    Sync,
    Delay,
    Peer,
}

// What an event is a part of. An exchange's last event measures; no other does.
#[derive(Clone, Copy)]
pub enum Part {
    Foreign,
    Filter,
    Opening(Exchange),
    End(Exchange),
}

// The runs of a block, each of which keeps its order.
#[derive(Clone, Copy, PartialEq, Eq)]
pub enum Run {
    Syncs,
    Request,
    Others,
}

// A message is heard, our request is due, a message of ours has left, or the filter answers.
#[derive(Clone, Copy)]
pub enum What {
    Heard(Message),
    RequestDue,
    DelayReqLeft,
    PDelayReqLeft,
    PDelayRespLeft,
    FilterAnswers,
}

// An event at a place of its block. Times, corrections and the rest are drawn from seed, so that it is the same in both runs.
#[derive(Clone, Copy)]
pub struct Happening {
    pub place: usize,
    pub what: What,
    pub part: Part,
    pub id: u16,
    pub seed: Chance,
}

impl Part {
    pub(crate) fn measures(self) -> Option<Exchange> {
        match self {
            Part::Foreign | Part::Filter | Part::Opening(_) => None,
            Part::End(exchange) => Some(exchange),
        }
    }

    pub(crate) fn run(self) -> Run {
        match self {
            Part::Foreign | Part::Filter => Run::Others,
            Part::Opening(Exchange::Sync) | Part::End(Exchange::Sync) => Run::Syncs,
            Part::Opening(_) | Part::End(_) => Run::Request,
        }
    }
}

impl What {
    // How the port is to answer.
    pub(crate) fn answer(self) -> Outcome {
        match self {
            What::Heard(message) => message.answer(),
            _ => Outcome::Taken,
        }
    }
}
