// Who is heard.
ghost use Rattle.std.specs.Prelude.{◌≡◌};
ghost use Rattle.record.specs.Same.{same_identity};
ghost use Rattle.rules.specs.Rules.{becomes_faulty};
ghost use Rattle.handling.specs.Handling.{handed_on};
ghost use Rattle.slave.specs.Keeping.{hearer};

use handling::Handled;
use record::{Port, PortState, SlaveState};
use wire::{Header, Identity};

// The Slave that this message is for, one of its master's.
#[tactic(auto, unfolding(crate::specs::Keeping::hearer, record::specs::Same::same_identity))]
pub(crate) fn from_master(port: Port, header: Header) -> Option<SlaveState>
    ensures { result ≡ hearer port header }
{
    match port.state {
        PortState::Slave(s) if s.master == header.source => Some(s),
        _ => None,
    }
}

// Whether an answer is for this port.
#[tactic(auto, unfolding(record::specs::Same::same_identity))]
pub(crate) fn to_us(port: Port, requester: Identity) -> bool
    ensures { result ≡ same_identity port.config.identity requester }
{
    port.config.identity == requester
}

// Two responders on one link are a fault.
pub(crate) fn becomes_faulty(port: Port) -> Handled
    ensures { result ≡ handed_on (becomes_faulty port) }
{
    Handled::changed(port.with_state(PortState::Faulty), true)
}
