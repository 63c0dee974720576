// Rows 2 and 3 of document 01's table: which record is unfit, and which time or draw of an event is out of limits. Functions
// and no methods, which would have to stand with the record's types.
#![tactic(auto)]

ghost use Rattle.std.specs.Prelude.{◌≡◌, ◌||◌};
ghost use Rattle.fitness.specs.Fit.{held_time, times_in, peer_times, slave_times, time_out, any_out, interval_out, draw_out, timeless, unanswered, full, peer_full, sync_timeless, slave_full, config_out, unfit};

use record::{Config, Exchange, PeerState, Port, PortState};
use time::Time;

// Whether the words of a time have the top bit set.
#[tactic(auto, unfolding(crate::specs::Fit::time_out))]
pub fn time_out(t: Time) -> bool
    ensures { result ≡ time_out t }
{
    !t.is_time()
}

// Whether a draw is 2^52 or more.
#[tactic(auto, unfolding(crate::specs::Fit::draw_out))]
pub fn draw_out(k: u64) -> bool
    ensures { result ≡ draw_out k }
{
    !timers::is_draw(k)
}

// Whether a log interval is below -9 or above 16.
#[tactic(auto, unfolding(crate::specs::Fit::interval_out))]
fn interval_out(byte: u8) -> bool
    ensures { result ≡ interval_out byte }
{
    !timers::is_interval(byte)
}

#[tactic(auto, unfolding(crate::specs::Fit::config_out, crate::specs::Fit::sdo_out, crate::specs::Fit::minor_out))]
fn config_out(config: Config) -> bool
    ensures { result ≡ config_out config }
{
    let intervals = interval_out(config.delay_interval) | interval_out(config.sync_interval);
    let sdo = config.sdo;
    let minor = config.minor;
    intervals | (sdo > 4095) | (minor > 1)
}

fn held_out(held: Option<Time>) -> bool
    ensures { result ≡ any_out (held_time held) }
{
    held.is_some_and(time_out)
}

#[tactic(auto, using(crate::proofs::FitLaws::out_joined))]
fn times_out(exchange: Exchange) -> bool
    ensures { result ≡ any_out (times_in exchange) }
{
    match exchange {
        Exchange::Measuring { send, receive, .. } => held_out(send) | held_out(receive),
        Exchange::Empty => false,
    }
}

// Open, and neither time is there.
fn is_timeless(exchange: Exchange) -> bool
    ensures { result ≡ timeless exchange }
{
    matches!(
        exchange,
        Exchange::Measuring {
            send: None,
            receive: None,
            ..
        }
    )
}

// Open, and both times are there.
fn is_full(exchange: Exchange) -> bool
    ensures { result ≡ full exchange }
{
    matches!(
        exchange,
        Exchange::Measuring {
            send: Some(_),
            receive: Some(_),
            ..
        }
    )
}

#[tactic(auto, using(crate::proofs::FitLaws::out_joined))]
fn peer_times_out(peer: PeerState) -> bool
    ensures { result ≡ any_out (peer_times peer) }
{
    match peer {
        PeerState::Measuring {
            request_send,
            request_receive,
            response_send,
            response_receive,
            ..
        } => {
            let request = held_out(request_send) | held_out(request_receive);
            request | held_out(response_send) | held_out(response_receive)
        }
        _ => false,
    }
}

// No responder is known, though a time stands that only an answer brings.
fn is_unanswered(peer: PeerState) -> bool
    ensures { result ≡ unanswered peer }
{
    match peer {
        PeerState::Measuring {
            responder: None,
            request_receive,
            response_send,
            response_receive,
            ..
        } => request_receive.is_some() | response_send.is_some() | response_receive.is_some(),
        _ => false,
    }
}

// Open, and all four times are there.
fn peer_full(peer: PeerState) -> bool
    ensures { result ≡ peer_full peer }
{
    matches!(
        peer,
        PeerState::Measuring {
            request_send: Some(_),
            request_receive: Some(_),
            response_send: Some(_),
            response_receive: Some(_),
            ..
        }
    )
}

#[tactic(auto, using(crate::proofs::FitLaws::out_joined))]
fn slave_times_out(state: PortState) -> bool
    ensures { result ≡ any_out (slave_times state) }
{
    match state {
        PortState::Slave(s) => times_out(s.sync) | times_out(s.delay),
        _ => false,
    }
}

// Slave, with an open sync that has no time.
fn sync_timeless(state: PortState) -> bool
    ensures { result ≡ sync_timeless state }
{
    match state {
        PortState::Slave(s) => is_timeless(s.sync),
        _ => false,
    }
}

// Slave, with a sync or a delay exchange that has all its times.
fn slave_full(state: PortState) -> bool
    ensures { result ≡ slave_full state }
{
    match state {
        PortState::Slave(s) => is_full(s.sync) | is_full(s.delay),
        _ => false,
    }
}

// Row 2: the record is unfit, so that no event may be taken.
#[tactic(auto, using(crate::proofs::FitLaws::unfit_parts))]
pub fn is_unfit(port: Port) -> bool
    ensures { result ≡ unfit port }
{
    let config = port.config;
    let state = port.state;
    let peer = port.peer;
    let limits = slave_times_out(state) | peer_times_out(peer) | config_out(config);
    let open = limits | sync_timeless(state) | is_unanswered(peer);
    open | slave_full(state) | peer_full(peer)
}
