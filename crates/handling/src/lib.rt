// What the handlers of a port hand on: the answer, and the message that is to be sent with it, not yet written.
// Function send writes it, for crate port. Handlers are in crates slave and master.
#![tactic(auto)]

pub mod sending;

ghost use Rattle.std.specs.Prelude.{◌≡◌, false, [], ◌∷◌};
ghost use Rattle.rules.specs.Events.{changed, timed, sending};
ghost use Rattle.rules.specs.Measuring.{measured};
ghost use Rattle.rules.specs.Rules.{sender_of};
ghost use Rattle.handling.specs.Handling.{handed_on};

use record::{Action, Answer, Config, Measurement, Port};
use sent::{Message, Sender};

// What a handler hands on of an event that is taken. A handler that refuses answers the row that does, and the record
// stays as it was found.
#[derive(Clone, Copy)]
pub struct Handled {
    pub answer: Answer,
    pub message: Option<Message>,
}

impl Handled {
    // Nothing is done, not even to the record.
    pub fn nothing(port: Port) -> Handled
        ensures { result ≡ handed_on (changed port false) }
    {
        Handled::changed(port, false)
    }

    // The record as it is now, with a reset of the filter or without.
    #[tactic(auto, unfolding(crate::specs::Handling::handed_on, record::specs::Answers::answer_of))]
    pub fn changed(port: Port, reset: bool) -> Handled
        ensures { result ≡ handed_on (changed port reset) }
    {
        let answer = Answer::taken(port).with_reset(reset);
        Handled {
            answer,
            message: None,
        }
    }

    #[tactic(auto, unfolding(crate::specs::Handling::handed_on, record::specs::Answers::answer_of))]
    pub fn measured(port: Port, measurement: Measurement, reset: bool) -> Handled
        ensures { result ≡ handed_on (measured port measurement reset) }
    {
        let answer = Answer::taken(port)
            .with_measurement(measurement)
            .with_reset(reset);
        Handled {
            answer,
            message: None,
        }
    }

    // A timer, and no packet.
    #[tactic(auto, using(record::proofs::AnswersLaws::one_action), unfolding(crate::specs::Handling::handed_on))]
    pub fn timed(port: Port, timer: Action) -> Handled
        ensures { result ≡ handed_on (timed port (timer ∷ [])) }
    {
        let answer = Answer::taken(port).with_action(timer);
        Handled {
            answer,
            message: None,
        }
    }

    // A packet, and no timer.
    #[tactic(auto, using(record::proofs::AnswersLaws::one_action), unfolding(crate::specs::Handling::handed_on))]
    pub fn sending(port: Port, message: Message, packet: Action) -> Handled
        ensures { result ≡ handed_on (sending port [] message packet) }
    {
        let answer = Answer::taken(port).with_action(packet);
        Handled {
            answer,
            message: Some(message),
        }
    }

    // A timer, and then a packet.
    #[tactic(auto, using(record::proofs::AnswersLaws::two_actions), unfolding(crate::specs::Handling::handed_on))]
    pub fn sending_timed(port: Port, timer: Action, message: Message, packet: Action) -> Handled
        ensures { result ≡ handed_on (sending port (timer ∷ []) message packet) }
    {
        let answer = Answer::taken(port).with_action(timer).with_action(packet);
        Handled {
            answer,
            message: Some(message),
        }
    }
}

// What every message of this port says of it.
pub fn sender_of(config: Config) -> Sender
    ensures { result ≡ sender_of config }
{
    Sender {
        sdo: config.sdo,
        domain: config.domain,
        minor: config.minor,
        identity: config.identity,
    }
}
