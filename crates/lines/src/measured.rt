// What a line shows of a measurement.
#![tactic(auto, unfolding(crate::specs::Lines::shown_of))]

ghost use Rattle.std.specs.Prelude.{◌≡◌};
ghost use Rattle.lines.specs.Lines.{shown_of};

use crate::Shown;
use record::Measurement;

fn some(measurement: Measurement) -> Shown
    ensures { result ≡ shown_of (Some measurement) }
{
    match measurement {
        Measurement::Sync {
            event_time,
            raw,
            offset,
        } => Shown {
            letter: b'S',
            value: Some(raw),
            time: Some(event_time),
            offset,
            delay: None,
        },
        Measurement::Delay {
            event_time,
            raw,
            delay,
        } => Shown {
            letter: b'D',
            value: Some(raw),
            time: Some(event_time),
            offset: None,
            delay,
        },
        Measurement::Peer { event_time, delay } => Shown {
            letter: b'P',
            value: Some(delay),
            time: Some(event_time),
            offset: None,
            delay: None,
        },
    }
}

pub(crate) fn shown(measurement: Option<Measurement>) -> Shown
    ensures { result ≡ shown_of measurement }
{
    match measurement {
        None => Shown {
            letter: b'-',
            value: None,
            time: None,
            offset: None,
            delay: None,
        },
        Some(m) => some(m),
    }
}
