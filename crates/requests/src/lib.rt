// Our own requests, when the delay timer has run out: a new id, an exchange begun with it, the timer set anew, the message.
#![tactic(auto)]

ghost use Rattle.std.specs.Prelude.{◌≡◌};
ghost use Rattle.rules.specs.Names.{Mechanism};
ghost use Rattle.rules.specs.Rules.{delay_sent, peer_sent, request, delay_timer_ends};
ghost use Rattle.handling.specs.Handling.{handed_on, handled_of};

use handling::{Handled, sender_of};
use record::sequence::id_after;
use record::{
    Action, Context, Exchange, Mechanism, Outcome, PeerState, Port, PortState, SlaveState,
};
use timers::delay_timer;

// A DelayReq goes out behind its timer, and takes the place of the one before. It and the PDelayReq each promise their own rule,
// delay_sent and peer_sent.
fn delay_req_sent(port: Port, s: SlaveState, ns: u64) -> Handled
    ensures { result ≡ handed_on (delay_sent port s ns) }
{
    let mut ids = port.ids;
    let id = ids.delay;
    let sender = sender_of(port.config);
    let message = sender.delay_req(id);
    let begun = Exchange::Measuring {
        id,
        send: None,
        receive: None,
    };
    ids.delay = id_after(id);
    let next = port.with_slave(s.with_delay(begun)).with_ids(ids);
    let context = Context::DelayReq { id };
    let timer = Action::ResetDelayRequestTimer { ns };
    let packet = Action::SendEvent {
        context,
        link_local: false,
    };
    Handled::sending_timed(next, timer, message, packet)
}

// A PDelayReq, which does not leave the link.
fn pdelay_req_sent(port: Port, ns: u64) -> Handled
    ensures { result ≡ handed_on (peer_sent port ns) }
{
    let mut ids = port.ids;
    let id = ids.peer;
    let sender = sender_of(port.config);
    let message = sender.pdelay_req(id);
    let begun = PeerState::Measuring {
        id,
        responder: None,
        request_send: None,
        request_receive: None,
        response_send: None,
        response_receive: None,
    };
    ids.peer = id_after(id);
    let next = port.with_peer(begun).with_ids(ids);
    let context = Context::PDelayReq { id };
    let timer = Action::ResetDelayRequestTimer { ns };
    let packet = Action::SendEvent {
        context,
        link_local: true,
    };
    Handled::sending_timed(next, timer, message, packet)
}

// End to end, a Slave asks its master.
fn send_e2e_delay_request(port: Port, draw: u64) -> Result<Handled, Outcome>
    ensures { result ≡ handled_of (request port draw Mechanism.EndToEnd) }
{
    let PortState::Slave(s) = port.state else {
        return Ok(Handled::nothing(port));
    };
    let ns = delay_timer(port.config.delay_interval, draw)?;
    Ok(delay_req_sent(port, s, ns))
}

// Peer to peer, every state asks its neighbour.
fn send_p2p_delay_request(port: Port, draw: u64) -> Result<Handled, Outcome>
    ensures { result ≡ handled_of (request port draw Mechanism.Peer) }
{
    let ns = delay_timer(port.config.delay_interval, draw)?;
    Ok(pdelay_req_sent(port, ns))
}

#[tactic(auto, unfolding(rules::specs::Rules::delay_timer_ends))]
pub fn send_delay_request(port: Port, draw: u64) -> Result<Handled, Outcome>
    ensures { result ≡ handled_of (delay_timer_ends port draw) }
{
    match port.config.mechanism {
        Mechanism::EndToEnd => send_e2e_delay_request(port, draw),
        Mechanism::Peer => send_p2p_delay_request(port, draw),
    }
}
