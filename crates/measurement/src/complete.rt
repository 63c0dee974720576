// Which exchange has all its times, and what of the record is a Slave's.
ghost use Rattle.std.specs.Prelude.{◌≡◌};
ghost use Rattle.measurement.specs.Taking.{pair_of, peer_times_of, slave_in};

use crate::PeerTimes;
use record::{Exchange, PeerState, PortState, SlaveState};
use time::Time;

// The send and the receive time of an exchange that has both.
#[tactic(auto, unfolding(crate::specs::Taking::pair_of))]
pub(crate) fn pair(exchange: Exchange) -> Option<(Time, Time)>
    ensures { result ≡ pair_of exchange }
{
    match exchange {
        Exchange::Measuring {
            send: Some(send),
            receive: Some(receive),
            ..
        } => Some((send, receive)),
        _ => None,
    }
}

#[tactic(auto, unfolding(crate::specs::Taking::peer_times_of))]
pub(crate) fn peer_times(peer: PeerState) -> Option<PeerTimes>
    ensures { result ≡ peer_times_of peer }
{
    match peer {
        PeerState::Measuring {
            id,
            responder: Some(responder),
            request_send: Some(request_send),
            request_receive: Some(request_receive),
            response_send: Some(response_send),
            response_receive: Some(response_receive),
        } => Some(PeerTimes {
            id,
            responder,
            request_send,
            request_receive,
            response_send,
            response_receive,
        }),
        _ => None,
    }
}

// A Slave's part of the record; None in any other state.
#[inline(always)]
#[tactic(auto, unfolding(crate::specs::Taking::slave_in))]
pub fn as_slave(state: PortState) -> Option<SlaveState>
    ensures { result ≡ slave_in state }
{
    match state {
        PortState::Slave(s) => Some(s),
        _ => None,
    }
}
