// Making an answer: its number, and its parts one by one.
ghost use Rattle.std.specs.Prelude.{◌≡◌};
ghost use Rattle.record.specs.declared.Outcome.{Outcome};
ghost use Rattle.record.specs.Answers.{number_of, timer_refused, refused_with, taken_with, with_measurement, with_reset, with_length, with_action};

use crate::{Action, Answer, Measurement, Outcome, Port, Todo};
use time::TimeError;
use timers::TimerError;

// A number and no cast: the table's, which a host and the event log read.
impl Outcome {
    // The number of document 01's table.
    pub fn number(self) -> u8
        ensures { result ≡ number_of self }
    {
        match self {
            Outcome::Taken => 0,
            Outcome::Buffer => 1,
            Outcome::Unfit => 2,
            Outcome::Limits => 3,
            Outcome::Version => 4,
            Outcome::Malformed => 5,
            Outcome::Foreign => 6,
            Outcome::Host => 8,
            Outcome::Range => 7,
        }
    }
}

// A sum or a sent field that leaves its range is refused as such.
impl From<TimeError> for Outcome {
    ghost from_gives = { λ _ outcome. outcome ≡ Outcome.Range };

    fn from(_error: TimeError) -> Outcome {
        Outcome::Range
    }
}

// A timer that the record's interval or the event's draw does not give.
impl From<TimerError> for Outcome {
    ghost from_gives = { λ error outcome. outcome ≡ timer_refused error };

    fn from(error: TimerError) -> Outcome {
        match error {
            TimerError::Interval => Outcome::Unfit,
            TimerError::Draw => Outcome::Limits,
        }
    }
}

impl Answer {
    // The record as it was found, and nothing else.
    pub fn refused(outcome: Outcome, port: Port) -> Answer
        ensures { result ≡ refused_with outcome port }
    {
        let none = Todo {
            action: Action::None,
        };
        Answer {
            outcome,
            port,
            measurement: None,
            length: 0,
            actions: [none, none],
            count: 0,
            reset: false,
        }
    }

    // An event that was taken, with no more to say of it than the record.
    pub fn taken(port: Port) -> Answer
        ensures { result ≡ taken_with port }
    {
        Answer::refused(Outcome::Taken, port)
    }

    // Stay a method for each part, as each part has its own type and its own definition.
    pub fn with_measurement(mut self, measurement: Measurement) -> Answer
        ensures { result ≡ with_measurement self measurement }
    {
        self.measurement = Some(measurement);
        self
    }

    pub fn with_reset(mut self, reset: bool) -> Answer
        ensures { result ≡ with_reset self reset }
    {
        self.reset = reset;
        self
    }

    // So many bytes of the packet buffer are to be sent.
    pub fn with_length(mut self, length: usize) -> Answer
        ensures { result ≡ with_length self length }
    {
        self.length = length;
        self
    }

    // One action more, behind the others. A third finds no place.
    #[tactic(auto, unfolding(crate::specs::Answers::with_action))]
    pub fn with_action(mut self, action: Action) -> Answer
        ensures { result ≡ with_action self action }
    {
        let count = self.count;
        if count < 2 {
            let place = usize::from(count);
            self.actions[place] = Todo { action };
            self.count = count + 1;
        }
        self
    }
}
