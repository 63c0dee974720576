// The exchange that an event left complete is measured, in the Rust's order: peer, sync, delay.
ghost use Rattle.std.specs.Prelude.{◌≡◌};
ghost use Rattle.rules.specs.Measuring.{settle};
ghost use Rattle.handling.specs.Handling.{handled_of};

use crate::{complete, measure};
use handling::Handled;
use record::{Outcome, Port};

// The record is the one with what the event brought. A sum that leaves its range is refused.
#[tactic(auto, unfolding(rules::specs::Measuring::settle, crate::specs::Taking::pair_of, crate::specs::Taking::peer_times_of, crate::specs::Taking::slave_in))]
pub fn extract_measurement(port: Port) -> Result<Handled, Outcome>
    ensures { result ≡ handled_of (settle port) }
{
    if let Some(times) = complete::peer_times(port.peer) {
        return measure::measure_peer(port, times);
    }
    let Some(s) = complete::as_slave(port.state) else {
        return Ok(Handled::nothing(port));
    };
    if let Some((send, receive)) = complete::pair(s.sync) {
        return measure::measure_sync(port, s, send, receive);
    }
    if let Some((send, receive)) = complete::pair(s.delay) {
        return measure::measure_delay(port, s, send, receive);
    }
    Ok(Handled::nothing(port))
}
