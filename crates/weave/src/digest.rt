// Everything of an answer in one word, so that two answers can be held against each other.
ghost use Rattle.std.specs.Prelude.{◌≡◌, ◌+◌, ◌*◌, ◌/◌, ◌%◌, ◌^◌};

use crate::chance::Chance;
use crate::events::Exchange;
use record::{Action, Answer, Context, Measurement, Outcome};
use time::{Duration, Time};
use wire::Identity;

#[derive(Clone, Copy, PartialEq, Eq)]
pub struct Digest {
    pub state: u64,
}

// What a digest takes in.
pub trait Fold {
    fn fold(self, d: Digest) -> Digest;
}

impl Digest {
    // Of nothing.
    pub(crate) fn new() -> Digest {
        Digest { state: 0 }
    }

    pub(crate) fn with<T: Fold>(self, x: T) -> Digest {
        x.fold(self)
    }
}

// One number more.
impl Fold for u64 {
    fn fold(self, d: Digest) -> Digest
        ensures { result.state ≡ (d.state % 4294967296 * 4294957665 + d.state / 4294967296 + self) % 2 ^ 64 }
    {
        let turned = Chance { state: d.state }.next();
        Digest {
            state: turned.state.wrapping_add(self),
        }
    }
}

impl Fold for u8 {
    fn fold(self, d: Digest) -> Digest {
        d.with(u64::from(self))
    }
}

impl Fold for u16 {
    fn fold(self, d: Digest) -> Digest {
        d.with(u64::from(self))
    }
}

impl Fold for usize {
    // The cast stays: Rust has no From between usize and u64.
    fn fold(self, d: Digest) -> Digest {
        d.with(self as u64)
    }
}

impl Fold for bool {
    fn fold(self, d: Digest) -> Digest {
        d.with(u64::from(self))
    }
}

impl Fold for Digest {
    fn fold(self, d: Digest) -> Digest {
        d.with(self.state)
    }
}

impl Fold for Time {
    fn fold(self, d: Digest) -> Digest {
        d.with(self.hi).with(self.lo)
    }
}

impl Fold for Duration {
    fn fold(self, d: Digest) -> Digest {
        d.with(self.hi).with(self.lo)
    }
}

impl Fold for Identity {
    fn fold(self, d: Digest) -> Digest {
        d.with(self.clock).with(self.port)
    }
}

impl Fold for Option<Duration> {
    fn fold(self, d: Digest) -> Digest {
        match self {
            None => d.with(0u8),
            Some(x) => d.with(1u8).with(x),
        }
    }
}

impl Fold for Option<Measurement> {
    fn fold(self, d: Digest) -> Digest {
        match self {
            None => d.with(0u8),
            Some(measured) => d.with(measured),
        }
    }
}

impl Fold for Measurement {
    fn fold(self, d: Digest) -> Digest {
        match self {
            Measurement::Sync {
                event_time,
                raw,
                offset,
            } => d.with(1u8).with(event_time).with(raw).with(offset),
            Measurement::Delay {
                event_time,
                raw,
                delay,
            } => d.with(2u8).with(event_time).with(raw).with(delay),
            Measurement::Peer { event_time, delay } => d.with(3u8).with(event_time).with(delay),
        }
    }
}

impl Fold for Context {
    fn fold(self, d: Digest) -> Digest {
        match self {
            Context::Sync { id } => d.with(0u8).with(id),
            Context::DelayReq { id } => d.with(1u8).with(id),
            Context::PDelayReq { id } => d.with(2u8).with(id),
            Context::PDelayResp { id, requester } => d.with(3u8).with(id).with(requester),
        }
    }
}

impl Fold for Action {
    fn fold(self, d: Digest) -> Digest {
        match self {
            Action::None => d.with(0u8),
            Action::ResetSyncTimer { ns } => d.with(1u8).with(ns),
            Action::ResetDelayRequestTimer { ns } => d.with(2u8).with(ns),
            Action::ResetFilterUpdateTimer { ns } => d.with(3u8).with(ns),
            Action::SendEvent {
                context,
                link_local,
            } => d.with(4u8).with(context).with(link_local),
            Action::SendGeneral { link_local } => d.with(5u8).with(link_local),
        }
    }
}

// The exchange at whose end m is measured.
fn measured_kind(m: Measurement) -> Exchange {
    match m {
        Measurement::Sync { .. } => Exchange::Sync,
        Measurement::Delay { .. } => Exchange::Delay,
        Measurement::Peer { .. } => Exchange::Peer,
    }
}

// An answer's outcome, what it measures and a digest of that, and a digest of all of it but its record, which is compared at the
// end of a block.
#[derive(Clone, Copy)]
pub struct Told {
    pub outcome: Outcome,
    pub kind: Option<Exchange>,
    pub measured: Digest,
    pub all: Digest,
}

impl Told {
    // Of an answer, and of the packet in the buffer's first bytes.
    pub(crate) fn new(a: Answer, buffer: &[u8]) -> Told {
        let measured = Digest::new().with(a.measurement);
        let all = Digest::new().with(a.outcome.number()).with(measured);
        let packet = buffer.iter().take(a.length);
        let sent = packet.fold(all.with(a.length), |d, byte| d.with(*byte));
        let [first, second] = a.actions;
        let acted = sent.with(a.count).with(first.action).with(second.action);
        Told {
            outcome: a.outcome,
            kind: a.measurement.map(measured_kind),
            measured,
            all: acted.with(a.reset),
        }
    }
}
