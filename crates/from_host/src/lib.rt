// What the host tells: the filter's answer, and a state.
#![tactic(auto)]

ghost use Rattle.std.specs.Prelude.{◌≡◌, Ok};
ghost use Rattle.rules.specs.Rules.{mean_given, state_of, filtered, state_set};
ghost use Rattle.handling.specs.Handling.{handled_of};

use handling::Handled;
use record::{Action, FilterUpdate, NewState, Port, PortState, SlaveState};
use time::Duration;

// A mean delay that the filter gives is kept; if it gives none the old one stays.
fn with_mean(port: Port, mean: Option<Duration>) -> Port
    ensures { result ≡ mean_given port mean }
{
    mean.map_or(port, |given| port.with_mean(given))
}

#[tactic(auto, unfolding(rules::specs::Rules::filtered))]
pub fn on_filter(port: Port, update: FilterUpdate) -> Handled
    ensures { Ok result ≡ handled_of (filtered port update) }
{
    let kept = with_mean(port, update.mean_delay);
    match update.next_update {
        None => Handled::nothing(kept),
        Some(ns) => Handled::timed(kept, Action::ResetFilterUpdateTimer { ns }),
    }
}

fn state_of(new: NewState) -> PortState
    ensures { result ≡ state_of new }
{
    match new {
        NewState::Listening => PortState::Listening,
        NewState::Master => PortState::Master,
        NewState::Passive => PortState::Passive,
        NewState::Faulty => PortState::Faulty,
        NewState::Slave(master) => PortState::Slave(SlaveState::new(master)),
    }
}

// Even the same state is begun anew. The filter is reset on leaving Slave or Faulty, and on entering Faulty.
#[tactic(auto, unfolding(rules::specs::Rules::state_set))]
pub fn on_state(port: Port, new: NewState) -> Handled
    ensures { Ok result ≡ handled_of (state_set port new) }
{
    let state = state_of(new);
    let leaves = matches!(port.state, PortState::Slave(_) | PortState::Faulty);
    let reset = leaves | matches!(state, PortState::Faulty);
    Handled::changed(port.with_state(state), reset)
}
