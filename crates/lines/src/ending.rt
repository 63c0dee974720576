// The record at the end of a log, as `trace` shows it.
#![tactic(auto, using(text::specs::PageLaws::typed_append))]

ghost use Rattle.text.specs.Lent.{Writes};
ghost use Rattle.lines.specs.Lines.{following, exchange_text, peer_text, slave_texts, ids_text, end_line};

use crate::values;
use record::{Exchange, Ids, PeerState, Port, PortState, SlaveState};
use text::Page;

#[tactic(auto, using(text::specs::PageLaws::typed_append), unfolding(crate::specs::Lines::exchange_text))]
fn exchange(page: &mut Page, x: Exchange)
    ensures { Writes page.old (exchange_text x) page.new }
{
    match x {
        Exchange::Empty => page.put(b'-'),
        Exchange::Measuring { id, send, receive } => {
            page.decimal(u64::from(id));
            page.put(b':');
            values::maybe_time(page, send);
            page.put(b':');
            values::maybe_time(page, receive);
        }
    }
}

#[tactic(auto, using(text::specs::PageLaws::typed_append), unfolding(crate::specs::Lines::peer_text))]
fn peer(page: &mut Page, x: PeerState)
    ensures { Writes page.old (peer_text x) page.new }
{
    match x {
        PeerState::Empty => page.put(b'-'),
        PeerState::Measuring {
            id,
            responder,
            request_send,
            request_receive,
            response_send,
            response_receive,
        } => {
            page.copy(b"open:");
            page.decimal(u64::from(id));
            page.put(b':');
            values::maybe_identity(page, responder);
            page.put(b':');
            values::maybe_time(page, request_send);
            page.put(b':');
            values::maybe_time(page, request_receive);
            page.put(b':');
            values::maybe_time(page, response_send);
            page.put(b':');
            values::maybe_time(page, response_receive);
        }
        PeerState::Measured { id, responder } => {
            page.copy(b"done:");
            page.decimal(u64::from(id));
            page.put(b':');
            values::identity(page, responder);
        }
    }
}

// The master, both exchanges and the raw offset, each behind a space.
#[tactic(auto, using(text::specs::PageLaws::typed_append), unfolding(crate::specs::Lines::slave_texts))]
fn slave(page: &mut Page, s: SlaveState)
    ensures { Writes page.old (following 32 (slave_texts (PortState.Slave s))) page.new }
{
    page.put(b' ');
    values::identity(page, s.master);
    page.put(b' ');
    exchange(page, s.sync);
    page.put(b' ');
    exchange(page, s.delay);
    page.put(b' ');
    values::maybe_duration(page, s.raw);
}

#[tactic(auto, unfolding(crate::specs::Lines::slave_texts))]
fn state(page: &mut Page, state: PortState)
    ensures { Writes page.old (following 32 (slave_texts state)) page.new }
{
    match state {
        PortState::Slave(s) => slave(page, s),
        PortState::Listening | PortState::Master | PortState::Passive | PortState::Faulty => {
            page.copy(b" - - - -");
        }
    }
}

fn next_ids(page: &mut Page, ids: Ids)
    ensures { Writes page.old (ids_text ids) page.new }
{
    page.decimal(u64::from(ids.sync));
    page.put(b':');
    page.decimal(u64::from(ids.delay));
    page.put(b':');
    page.decimal(u64::from(ids.peer));
}

// end STATE MASTER SYNC DELAY RAW PEER MEAN IDS
#[tactic(auto, using(text::specs::PageLaws::typed_append, crate::proofs::Texts::typed_following), unfolding(crate::specs::Lines::end_line))]
pub(crate) fn end_line(page: &mut Page, port: Port)
    ensures { Writes page.old (end_line port) page.new }
{
    page.copy(b"end ");
    page.decimal(u64::from(port.state.number())); // the line shows the number itself
    state(page, port.state);
    page.put(b' ');
    peer(page, port.peer);
    page.put(b' ');
    values::maybe_duration(page, port.mean);
    page.put(b' ');
    next_ids(page, port.ids);
    page.put(b'\n');
}
