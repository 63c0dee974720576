// What a complete exchange measures (document 01, 'The measurement'), each of the three by its own formula. A sum that leaves its
// range is refused.
ghost use Rattle.std.specs.Prelude.{◌≡◌};
ghost use Rattle.rules.specs.Measuring.{less_mean, measure_sync, half_below, measure_delay, recovered, measure_peer};
ghost use Rattle.record.specs.Record.{is_faulty};
ghost use Rattle.handling.specs.Handling.{handled_of};
ghost use Rattle.measurement.specs.Taking.{raw_between, twice_delay};

use crate::PeerTimes;
use handling::Handled;
use record::{Exchange, Measurement, Outcome, PeerState, Port, PortState, SlaveState};
use time::{Duration, Time};

// What passed from b to a, less the asymmetry.
#[tactic(auto, unfolding(crate::specs::Taking::raw_between, rules::specs::Worked::elapsed, rules::specs::Worked::less_duration))]
fn raw_between(a: Time, b: Time, asymmetry: Duration) -> Result<Duration, Outcome>
    ensures { result ≡ raw_between a b asymmetry }
{
    let apart = a.minus(b)?;
    Ok(apart.minus(asymmetry)?)
}

// The offset, where there is a mean delay to take off.
#[tactic(auto, unfolding(rules::specs::Worked::less_duration))]
fn less_mean(raw: Duration, mean: Option<Duration>) -> Result<Option<Duration>, Outcome>
    ensures { result ≡ less_mean raw mean }
{
    Ok(mean.map(|mean| raw.minus(mean)).transpose()?)
}

// The delay, where a raw sync offset is kept.
#[tactic(auto, unfolding(rules::specs::Worked::less_duration))]
fn half_below(last: Option<Duration>, raw: Duration) -> Result<Option<Duration>, Outcome>
    ensures { result ≡ half_below last raw }
{
    let twice = last.map(|last| last.minus(raw)).transpose()?;
    Ok(twice.map(|twice| twice.half()))
}

#[tactic(auto, unfolding(rules::specs::Measuring::measure_sync, crate::specs::Taking::raw_between))]
pub(crate) fn measure_sync(
    port: Port,
    s: SlaveState,
    send: Time,
    receive: Time,
) -> Result<Handled, Outcome>
    ensures { result ≡ handled_of (measure_sync port s send receive) }
{
    let raw = raw_between(receive, send, port.config.asymmetry)?;
    let offset = less_mean(raw, port.mean)?;
    let kept = s.with_sync(Exchange::Empty).with_raw(raw);
    let measurement = Measurement::Sync {
        event_time: receive,
        raw,
        offset,
    };
    Ok(Handled::measured(port.with_slave(kept), measurement, false))
}

#[tactic(auto, unfolding(rules::specs::Measuring::measure_delay, crate::specs::Taking::raw_between))]
pub(crate) fn measure_delay(
    port: Port,
    s: SlaveState,
    send: Time,
    receive: Time,
) -> Result<Handled, Outcome>
    ensures { result ≡ handled_of (measure_delay port s send receive) }
{
    let raw = raw_between(send, receive, port.config.asymmetry)?;
    let delay = half_below(s.raw, raw)?;
    let kept = s.with_delay(Exchange::Empty);
    let measurement = Measurement::Delay {
        event_time: send,
        raw,
        delay,
    };
    Ok(Handled::measured(port.with_slave(kept), measurement, false))
}

// The whole turn without the responder's stay: twice the delay of the link.
#[tactic(auto, unfolding(crate::specs::Taking::twice_delay, rules::specs::Worked::elapsed, rules::specs::Worked::less_duration))]
fn twice_delay(t1: Time, t2: Time, t3: Time, t4: Time) -> Result<Duration, Outcome>
    ensures { result ≡ twice_delay t1 t2 t3 t4 }
{
    let turn = t4.minus(t1)?;
    let stay = t3.minus(t2)?;
    Ok(turn.minus(stay)?)
}

fn is_faulty(state: PortState) -> bool
    ensures { result ≡ is_faulty state }
{
    matches!(state, PortState::Faulty)
}

// Faulty becomes Listening.
fn recovered(state: PortState) -> PortState
    ensures { result ≡ recovered state }
{
    if is_faulty(state) {
        PortState::Listening
    } else {
        state
    }
}

#[tactic(auto, unfolding(rules::specs::Measuring::measure_peer, crate::specs::Taking::twice_delay))]
pub(crate) fn measure_peer(port: Port, times: PeerTimes) -> Result<Handled, Outcome>
    ensures { result ≡ handled_of (measure_peer port times.id times.responder times.request_send times.request_receive times.response_send times.response_receive) }
{
    let event_time = times.response_receive;
    let twice = twice_delay(
        times.request_send,
        times.request_receive,
        times.response_send,
        event_time,
    )?;
    let measurement = Measurement::Peer {
        event_time,
        delay: twice.half(),
    };
    let measured = port.with_peer(PeerState::Measured {
        id: times.id,
        responder: times.responder,
    });
    let left = measured.with_state(recovered(port.state));
    Ok(Handled::measured(left, measurement, is_faulty(port.state)))
}
