// Whether two records, or two parts of one kind, are equal: for hosts and for tests. No rule compares more than identities.
// Functions and no methods, which would have to stand with the record's types. They stay one for each type, as hosts call them and as
// the laws speak of each; most are the derived comparison of their type.
#![tactic(auto)]

ghost use Rattle.std.specs.Prelude.{◌≡◌};
ghost use Rattle.same.specs.Same.{same_time, same_duration, same_maybe_time, same_maybe_duration, same_maybe_identity, same_exchange, same_peer, same_slave, same_state, same_mechanism, same_config, same_ids, same_port};

use record::equality::same_identity;
use record::{Config, Exchange, Ids, Mechanism, PeerState, Port, PortState, SlaveState};
use time::{Duration, Time};
use wire::Identity;

#[tactic(auto, unfolding(crate::specs::Same::same_time))]
pub fn same_time(a: Time, b: Time) -> bool
    ensures { result ≡ same_time a b }
{
    a == b
}

#[tactic(auto, unfolding(crate::specs::Same::same_duration))]
pub fn same_duration(a: Duration, b: Duration) -> bool
    ensures { result ≡ same_duration a b }
{
    a == b
}

#[tactic(auto, unfolding(crate::specs::Same::same_maybe_time, crate::specs::Same::same_time))]
pub fn same_maybe_time(a: Option<Time>, b: Option<Time>) -> bool
    ensures { result ≡ same_maybe_time a b }
{
    a == b
}

#[tactic(auto, unfolding(crate::specs::Same::same_maybe_duration, crate::specs::Same::same_duration))]
pub fn same_maybe_duration(a: Option<Duration>, b: Option<Duration>) -> bool
    ensures { result ≡ same_maybe_duration a b }
{
    a == b
}

#[tactic(auto, unfolding(crate::specs::Same::same_maybe_identity, record::specs::Same::same_identity))]
pub fn same_maybe_identity(a: Option<Identity>, b: Option<Identity>) -> bool
    ensures { result ≡ same_maybe_identity a b }
{
    a == b
}

#[tactic(auto, unfolding(crate::specs::Same::same_exchange, crate::specs::Same::same_maybe_time, crate::specs::Same::same_time))]
pub fn same_exchange(a: Exchange, b: Exchange) -> bool
    ensures { result ≡ same_exchange a b }
{
    a == b
}

// By its parts: in one go the proof of the derived comparison does not close.
#[tactic(auto, unfolding(crate::specs::Same::same_peer))]
pub fn same_peer(a: PeerState, b: PeerState) -> bool
    ensures { result ≡ same_peer a b }
{
    match (a, b) {
        (PeerState::Empty, PeerState::Empty) => true,
        (
            PeerState::Measuring {
                id,
                responder,
                request_send,
                request_receive,
                response_send,
                response_receive,
            },
            PeerState::Measuring {
                id: other,
                responder: who,
                request_send: t1,
                request_receive: t2,
                response_send: t3,
                response_receive: t4,
            },
        ) => {
            id == other
                && same_maybe_identity(responder, who)
                && same_maybe_time(request_send, t1)
                && same_maybe_time(request_receive, t2)
                && same_maybe_time(response_send, t3)
                && same_maybe_time(response_receive, t4)
        }
        (
            PeerState::Measured { id, responder },
            PeerState::Measured {
                id: other,
                responder: who,
            },
        ) => id == other && same_identity(responder, who),
        _ => false,
    }
}

#[tactic(auto, unfolding(crate::specs::Same::same_mechanism))]
pub fn same_mechanism(a: Mechanism, b: Mechanism) -> bool
    ensures { result ≡ same_mechanism a b }
{
    a == b
}

#[tactic(auto, unfolding(crate::specs::Same::same_config, crate::specs::Same::same_mechanism, crate::specs::Same::same_duration, record::specs::Same::same_identity))]
pub fn same_config(a: Config, b: Config) -> bool
    ensures { result ≡ same_config a b }
{
    a == b
}

#[tactic(auto, unfolding(crate::specs::Same::same_ids))]
pub fn same_ids(a: Ids, b: Ids) -> bool
    ensures { result ≡ same_ids a b }
{
    a == b
}

// This and the next two go by parts: the search for a proof stops at a derived comparison of so many levels.
#[tactic(auto, unfolding(crate::specs::Same::same_slave))]
pub fn same_slave(a: SlaveState, b: SlaveState) -> bool
    ensures { result ≡ same_slave a b }
{
    same_identity(a.master, b.master)
        && same_exchange(a.sync, b.sync)
        && same_exchange(a.delay, b.delay)
        && same_maybe_duration(a.raw, b.raw)
}

#[tactic(auto, unfolding(crate::specs::Same::same_state))]
pub fn same_state(a: PortState, b: PortState) -> bool
    ensures { result ≡ same_state a b }
{
    match (a, b) {
        (PortState::Listening, PortState::Listening) => true,
        (PortState::Master, PortState::Master) => true,
        (PortState::Passive, PortState::Passive) => true,
        (PortState::Faulty, PortState::Faulty) => true,
        (PortState::Slave(s), PortState::Slave(t)) => same_slave(s, t),
        _ => false,
    }
}

#[tactic(auto, unfolding(crate::specs::Same::same_port))]
pub fn same_port(a: Port, b: Port) -> bool
    ensures { result ≡ same_port a b }
{
    same_config(a.config, b.config)
        && same_state(a.state, b.state)
        && same_peer(a.peer, b.peer)
        && same_maybe_duration(a.mean, b.mean)
        && same_ids(a.ids, b.ids)
}
