// The answering half of a port, after master.rs of the Rust: the Sync and its FollowUp, which a Master sends,
// and what is answered to the requests of others. The rules are those of crate rules; a handler for each, by the Rust's names.
#![tactic(auto)]

ghost use Rattle.std.specs.Prelude.{◌≡◌};
ghost use Rattle.record.specs.declared.Context.{Context};
ghost use Rattle.record.specs.Record.{is_master};
ghost use Rattle.rules.specs.Rules.{sync_sent, sync_timer_ends, stamped, delay_req, p_delay_req};
ghost use Rattle.handling.specs.Handling.{handed_on, handled_of};

use handling::{Handled, sender_of};
use record::sequence::id_after;
use record::{Action, Context, Outcome, Port, PortState};
use time::Time;
use timers::sync_timer;
use wire::{Header, Identity};

#[derive(Clone, Copy)]
pub struct Answering {
    pub port: Port,
}

// A Master alone gives the time; the questions of peers are for every state.
fn is_master(port: Port) -> bool
    ensures { result ≡ is_master port.state }
{
    matches!(port.state, PortState::Master)
}

// A Sync goes out behind its timer, and its id is spent.
fn sync_sent(port: Port, ns: u64) -> Handled
    ensures { result ≡ handed_on (sync_sent port ns) }
{
    let config = port.config;
    let mut ids = port.ids;
    let id = ids.sync;
    let sender = sender_of(config);
    let sync = sender.sync(id, config.sync_interval);
    ids.sync = id_after(id);
    let next = port.with_ids(ids);
    let timer = Action::ResetSyncTimer { ns };
    let context = Context::Sync { id };
    let packet = Action::SendEvent {
        context,
        link_local: false,
    };
    Handled::sending_timed(next, timer, sync, packet)
}

// A message that a field does not hold is refused.
impl Answering {
    // The sync timer has run out: a Master sets it anew and sends a Sync, which takes an id.
    #[tactic(auto, unfolding(rules::specs::Rules::sync_timer_ends))]
    pub fn send_sync(self) -> Result<Handled, Outcome>
        ensures { result ≡ handled_of (sync_timer_ends self.port) }
    {
        let port = self.port;
        if !is_master(port) {
            return Ok(Handled::nothing(port));
        }
        let ns = sync_timer(port.config.sync_interval)?;
        Ok(sync_sent(port, ns))
    }

    // A Sync has left: a Master tells when.
    #[tactic(auto, unfolding(rules::specs::Rules::stamped))]
    pub fn handle_sync_timestamp(self, id: u16, timestamp: Time) -> Result<Handled, Outcome>
        ensures { result ≡ handled_of (stamped self.port timestamp (Context.Sync id)) }
    {
        let port = self.port;
        if !is_master(port) {
            return Ok(Handled::nothing(port));
        }
        let config = port.config;
        let follow_up = sender_of(config).follow_up(id, config.sync_interval, timestamp)?;
        let packet = Action::SendGeneral { link_local: false };
        Ok(Handled::sending(port, follow_up, packet))
    }

    // A Slave asks for the delay: a Master tells when the question came.
    #[tactic(auto, unfolding(rules::specs::Rules::delay_req))]
    pub fn handle_delay_req(self, header: Header, recv_time: Time) -> Result<Handled, Outcome>
        ensures { result ≡ handled_of (delay_req self.port header recv_time) }
    {
        let port = self.port;
        if !is_master(port) {
            return Ok(Handled::nothing(port));
        }
        let config = port.config;
        let resp = sender_of(config).delay_resp(header, config.delay_interval, recv_time)?;
        let packet = Action::SendGeneral { link_local: false };
        Ok(Handled::sending(port, resp, packet))
    }

    // A peer asks, and is answered in every state. What peers say to each other stays on the link.
    #[tactic(auto, unfolding(rules::specs::Rules::p_delay_req))]
    pub fn handle_pdelay_req(self, header: Header, recv_time: Time) -> Result<Handled, Outcome>
        ensures { result ≡ handled_of (p_delay_req self.port header recv_time) }
    {
        let port = self.port;
        let sender = sender_of(port.config);
        let resp = sender.pdelay_resp(header, recv_time)?;
        let id = header.id;
        let requester = header.source;
        let context = Context::PDelayResp { id, requester };
        let packet = Action::SendEvent {
            context,
            link_local: true,
        };
        Ok(Handled::sending(port, resp, packet))
    }

    // A PDelayResp has left: the peer that asked is told when.
    #[tactic(auto, unfolding(rules::specs::Rules::stamped))]
    pub fn handle_pdelay_response_timestamp(
        self,
        id: u16,
        requester: Identity,
        timestamp: Time,
    ) -> Result<Handled, Outcome>
        ensures { result ≡ handled_of (stamped self.port timestamp (Context.PDelayResp id requester)) }
    {
        let port = self.port;
        let sender = sender_of(port.config);
        let follow_up = sender.pdelay_resp_follow_up(id, requester, timestamp)?;
        let packet = Action::SendGeneral { link_local: true };
        Ok(Handled::sending(port, follow_up, packet))
    }
}
