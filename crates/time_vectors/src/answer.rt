// What an answer looks like behind its letter.
use std::fmt;
use time::{Duration, Time, TimeError, WireTimestamp};
use timers::TimerError;

#[derive(Clone, Copy)]
pub(crate) enum Answer {
    // A refusal's number, or 1 for yes and 0 for no.
    Number(u8),
    // The two words of a time or a duration.
    Words {
        hi: u64,
        lo: u64,
    },
    Wire {
        timestamp: WireTimestamp,
        fraction: u16,
    },
    Nanoseconds(u64),
}

impl fmt::Display for Answer {
    fn fmt<W: fmt::Write>(&self, f: &mut fmt::Formatter<W>) -> fmt::Result {
        match *self {
            Answer::Number(n) => write!(f, "{n}"),
            Answer::Words { hi, lo } => write!(f, "0 {hi:016x}{lo:016x}"),
            Answer::Wire {
                timestamp,
                fraction,
            } => {
                let WireTimestamp { seconds, nanos } = timestamp;
                write!(f, "0 {seconds:x} {nanos:x} {fraction:x}")
            }
            Answer::Nanoseconds(ns) => write!(f, "0 {ns:x}"),
        }
    }
}

impl From<bool> for Answer {
    fn from(yes: bool) -> Answer {
        Answer::Number(u8::from(yes))
    }
}

impl From<Time> for Answer {
    fn from(t: Time) -> Answer {
        Answer::Words { hi: t.hi, lo: t.lo }
    }
}

impl From<Duration> for Answer {
    fn from(d: Duration) -> Answer {
        Answer::Words { hi: d.hi, lo: d.lo }
    }
}

impl<T: Into<Answer>> From<Result<T, TimeError>> for Answer {
    fn from(answer: Result<T, TimeError>) -> Answer {
        match answer {
            Ok(value) => value.into(),
            Err(_) => Answer::Number(7),
        }
    }
}

impl From<(WireTimestamp, u16)> for Answer {
    fn from((timestamp, fraction): (WireTimestamp, u16)) -> Answer {
        Answer::Wire {
            timestamp,
            fraction,
        }
    }
}

impl From<Result<u64, TimerError>> for Answer {
    fn from(answer: Result<u64, TimerError>) -> Answer {
        match answer {
            Ok(ns) => Answer::Nanoseconds(ns),
            Err(TimerError::Interval) => Answer::Number(2),
            Err(TimerError::Draw) => Answer::Number(3),
        }
    }
}
