// What the messages of others bring, and the stamps of our own requests. Where the exchange stays nothing is done; a new
// one is stored, and measured if that completes it. A sum that leaves its range is refused.
ghost use Rattle.std.specs.Prelude.{◌≡◌};
ghost use Rattle.rules.specs.Names.{Context};
ghost use Rattle.rules.specs.Rules.{sync, follow_up, delay_resp, p_delay_resp, p_delay_resp_follow_up, stamped};
ghost use Rattle.handling.specs.Handling.{handled_of};

use crate::{Measuring, hearing};
use exchanges::{peer, two_way};
use handling::Handled;
use measurement::extract::extract_measurement;
use record::{Outcome, PortState};
use time::Time;
use wire::{Header, Identity};

impl Measuring {
    // A Sync, at the time at which it came. The sum is worked out before the exchange is looked at.
    #[tactic(auto, unfolding(rules::specs::Rules::sync, rules::specs::Worked::less_correction, crate::specs::Keeping::hearer))]
    pub fn handle_sync(
        self,
        header: Header,
        origin: Time,
        recv_time: Time,
    ) -> Result<Handled, Outcome>
        ensures { result ≡ handled_of (sync self.port header origin recv_time) }
    {
        let port = self.port;
        let Some(s) = hearing::from_master(port, header) else {
            return Ok(Handled::nothing(port));
        };
        let received = recv_time.minus_correction(header.correction)?;
        let Some(sync) = two_way::sync_received(s.sync, header, origin, received) else {
            return Ok(Handled::nothing(port));
        };
        extract_measurement(port.with_slave(s.with_sync(sync)))
    }

    #[tactic(auto, unfolding(rules::specs::Rules::follow_up, rules::specs::Worked::plus_correction, crate::specs::Keeping::hearer))]
    pub fn handle_follow_up(self, header: Header, precise_origin: Time) -> Result<Handled, Outcome>
        ensures { result ≡ handled_of (follow_up self.port header precise_origin) }
    {
        let port = self.port;
        let Some(s) = hearing::from_master(port, header) else {
            return Ok(Handled::nothing(port));
        };
        let sent = precise_origin.plus_correction(header.correction)?;
        let Some(sync) = two_way::followed_up(s.sync, header.id, sent) else {
            return Ok(Handled::nothing(port));
        };
        extract_measurement(port.with_slave(s.with_sync(sync)))
    }

    #[tactic(auto, unfolding(rules::specs::Rules::delay_resp, crate::specs::Keeping::hearer))]
    pub fn handle_delay_resp(
        self,
        header: Header,
        requester: Identity,
        receive: Time,
    ) -> Result<Handled, Outcome>
        ensures { result ≡ handled_of (delay_resp self.port header requester receive) }
    {
        let port = self.port;
        if !hearing::to_us(port, requester) {
            return Ok(Handled::nothing(port));
        }
        let Some(s) = hearing::from_master(port, header) else {
            return Ok(Handled::nothing(port));
        };
        let Some(delay) = two_way::delay_answered(s.delay, header, receive)? else {
            return Ok(Handled::nothing(port));
        };
        extract_measurement(port.with_slave(s.with_delay(delay)))
    }

    // A PDelayResp, at the time at which it came. A second responder is a fault, whatever its numbers are.
    #[tactic(auto, unfolding(rules::specs::Rules::p_delay_resp, rules::specs::Rules::peer_answer))]
    pub fn handle_peer_delay_response(
        self,
        header: Header,
        requester: Identity,
        request_receive: Time,
        recv_time: Time,
    ) -> Result<Handled, Outcome>
        ensures { result ≡ handled_of (p_delay_resp self.port header requester request_receive recv_time) }
    {
        let port = self.port;
        if !hearing::to_us(port, requester) {
            return Ok(Handled::nothing(port));
        }
        if peer::second_responder(port.peer, header) {
            return Ok(hearing::becomes_faulty(port));
        }
        let Some(peer) = peer::peer_responded(port.peer, header, request_receive, recv_time)? else {
            return Ok(Handled::nothing(port));
        };
        extract_measurement(port.with_peer(peer))
    }

    #[tactic(auto, unfolding(rules::specs::Rules::p_delay_resp_follow_up, rules::specs::Rules::peer_answer))]
    pub fn handle_peer_delay_response_follow_up(
        self,
        header: Header,
        requester: Identity,
        response_origin: Time,
    ) -> Result<Handled, Outcome>
        ensures { result ≡ handled_of (p_delay_resp_follow_up self.port header requester response_origin) }
    {
        let port = self.port;
        if !hearing::to_us(port, requester) {
            return Ok(Handled::nothing(port));
        }
        if peer::second_responder(port.peer, header) {
            return Ok(hearing::becomes_faulty(port));
        }
        let Some(peer) = peer::peer_responded_later(port.peer, header, response_origin)? else {
            return Ok(Handled::nothing(port));
        };
        extract_measurement(port.with_peer(peer))
    }

    // The DelayReq with this id has left.
    #[tactic(auto, unfolding(rules::specs::Rules::stamped))]
    pub fn handle_delay_timestamp(self, id: u16, timestamp: Time) -> Result<Handled, Outcome>
        ensures { result ≡ handled_of (stamped self.port timestamp (Context.DelayReq id)) }
    {
        let port = self.port;
        let PortState::Slave(s) = port.state else {
            return Ok(Handled::nothing(port));
        };
        let Some(delay) = two_way::delay_stamped(s.delay, id, timestamp) else {
            return Ok(Handled::nothing(port));
        };
        extract_measurement(port.with_slave(s.with_delay(delay)))
    }

    // The PDelayReq with this id has left.
    #[tactic(auto, unfolding(rules::specs::Rules::stamped))]
    pub fn handle_pdelay_timestamp(self, id: u16, timestamp: Time) -> Result<Handled, Outcome>
        ensures { result ≡ handled_of (stamped self.port timestamp (Context.PDelayReq id)) }
    {
        let port = self.port;
        let Some(peer) = peer::peer_stamped(port.peer, id, timestamp) else {
            return Ok(Handled::nothing(port));
        };
        extract_measurement(port.with_peer(peer))
    }
}
