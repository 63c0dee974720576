// What a line asks.
use crate::answer::Answer;
use questions::{Fields, UnknownLetter};
use time::{Duration, Time, WireTimestamp};

// The bytes of a line, with its end.
pub(crate) const LINE: usize = 70;

// One function of crates time and timers, on what it takes.
#[derive(Clone, Copy)]
pub(crate) enum Question {
    IsTime(Time),
    OfWords { hi: u64, lo: u64 },
    OfWire(WireTimestamp),
    ToWire(Time),
    PlusCorrection(Time, u64),
    MinusCorrection(Time, u64),
    TimeMinus(Time, Time),
    DurationMinus(Duration, Duration),
    Half(Duration),
    IsInterval(u8),
    IsDraw(u64),
    SyncTimer(u8),
    DelayTimer { interval: u8, draw: u64 },
}

impl TryFrom<&[u8; LINE]> for Question {
    type Error = UnknownLetter;

    fn try_from(line: &[u8; LINE]) -> Result<Question, UnknownLetter> {
        let mut fields = Fields { rest: &line[1..] };
        let a = u64::from_be_bytes(fields.bytes());
        let b = u64::from_be_bytes(fields.bytes());
        let c = u64::from_be_bytes(fields.bytes());
        let d = u64::from_be_bytes(fields.bytes());
        let first = Time { hi: a, lo: b };
        let [.., interval] = a.to_be_bytes();
        let [.., n0, n1, n2, n3] = b.to_be_bytes();
        Ok(match line[0] {
            b'i' => Question::IsTime(first),
            b'w' => Question::OfWords { hi: a, lo: b },
            b'r' => Question::OfWire(WireTimestamp {
                seconds: a,
                nanos: u32::from_be_bytes([n0, n1, n2, n3]),
            }),
            b's' => Question::ToWire(first),
            b'p' => Question::PlusCorrection(first, c),
            b'm' => Question::MinusCorrection(first, c),
            b't' => Question::TimeMinus(first, Time { hi: c, lo: d }),
            b'd' => Question::DurationMinus(Duration { hi: a, lo: b }, Duration { hi: c, lo: d }),
            b'h' => Question::Half(Duration { hi: a, lo: b }),
            b'n' => Question::IsInterval(interval),
            b'k' => Question::IsDraw(b),
            b'y' => Question::SyncTimer(interval),
            b'z' => Question::DelayTimer { interval, draw: b },
            _ => return Err(UnknownLetter),
        })
    }
}

impl Question {
    pub(crate) fn answer(self) -> Answer {
        match self {
            Question::IsTime(t) => Answer::from(t.is_time()),
            // The words are taken as an event's time.
            Question::OfWords { hi, lo } => match Time::of_words(hi, lo) {
                Some(t) => Answer::from(t),
                None => Answer::Number(3),
            },
            Question::OfWire(w) => match Time::of_wire(w) {
                Ok(t) => Answer::from(t),
                Err(_) => Answer::Number(5),
            },
            Question::ToWire(t) => Answer::from(t.to_wire()),
            Question::PlusCorrection(t, c) => Answer::from(t.plus_correction(c)),
            Question::MinusCorrection(t, c) => Answer::from(t.minus_correction(c)),
            Question::TimeMinus(t, u) => Answer::from(t.minus(u)),
            Question::DurationMinus(d, e) => Answer::from(d.minus(e)),
            Question::Half(d) => Answer::from(d.half()),
            Question::IsInterval(n) => Answer::from(timers::is_interval(n)),
            Question::IsDraw(k) => Answer::from(timers::is_draw(k)),
            Question::SyncTimer(n) => Answer::from(timers::sync_timer(n)),
            Question::DelayTimer { interval, draw } => {
                Answer::from(timers::delay_timer(interval, draw))
            }
        }
    }
}
