// The host's part: an event of a block is made whole and brought to the port.
ghost use Rattle.std.specs.Prelude.{◌<◌, ◌≤◌};

use crate::chance::Chance;
use crate::events::{Happening, What};
use crate::says;
use crate::says::{Said, Type};
use port::Running;
use record::{Answer, Context, FilterUpdate};
use time::{Duration, Time, WireTimestamp};
use wire::{Header, MessageType};

// A time from 2^52 ns up to 2^53 ns, so that no sum leaves its range.
fn time(c: Chance) -> Time
    ensures { (1048576 ≤ result.hi) × (result.hi < 2097152) }
{
    let lo = c.next();
    Time {
        hi: 0x10_0000 + u64::from(c.thrown() % 0x10_0000),
        lo: lo.word(),
    }
}

// A timestamp of some 2^52 ns.
fn timestamp(c: Chance) -> WireTimestamp
    ensures { (result.seconds < 8503600) × (result.nanos < 1000000000) }
{
    let nanos = c.next();
    WireTimestamp {
        seconds: 4_503_600 + u64::from(c.thrown() % 4_000_000),
        nanos: nanos.thrown() % 1_000_000_000,
    }
}

// Less than 2^31 ns, of either sign.
fn correction(c: Chance) -> u64 {
    (c.word() % 0x1_0000_0000_0000).wrapping_sub(0x8000_0000_0000)
}

// Below 2^52, as document 01 wants a draw.
fn draw(c: Chance) -> u64
    ensures { result < 4503599627370496 }
{
    c.word() % 0x10_0000_0000_0000
}

// A mean delay of either sign.
fn mean_delay(c: Chance) -> Duration {
    Duration {
        hi: c.pick(&[0, u64::MAX]),
        lo: c.next().word(),
    }
}

// A mean delay, a next update, both or neither.
fn update(c: Chance) -> FilterUpdate {
    let mean = Some(mean_delay(c.next()));
    let next = Some(c.next().word());
    let (mean_delay, next_update) = match c.below(4) {
        0 => (mean, next),
        1 => (mean, None),
        2 => (None, next),
        _ => (None, None),
    };
    FilterUpdate {
        mean_delay,
        next_update,
    }
}

fn header(said: Said, t: MessageType, c: Chance) -> Header {
    Header {
        major_sdo: says::MAJOR,
        kind: t.number(),
        minor: 1,
        version: 2,
        length: t.length(),
        domain: said.domain,
        minor_sdo: says::MINOR,
        flags: said.flags,
        correction: correction(c),
        source: said.source,
        id: said.id,
        interval: 0,
    }
}

// The message in the first bytes of a buffer, and how many it has: a buffer of the room that a port's has. An Announce is written
// as a Sync and then given its number.
fn spelled(said: Said, c: Chance) -> ([u8; 64], usize) {
    let mut bytes = [0u8; 64];
    let stamp = timestamp(c);
    let message_type = match said.message_type {
        Type::Table(t) => t,
        Type::Announce => MessageType::Sync,
    };
    let behind = questions::body_of(message_type.number(), stamp, said.requester);
    let front = header(said, message_type, c.next().next());
    // 64 bytes take each of these, and the header is made for its body
    let _ = writing::write(&mut bytes, front, behind);
    if let Type::Announce = said.message_type {
        bytes[0] = says::MAJOR * 16 + 11;
    }
    (bytes, usize::from(front.length))
}

// Event messages come by the event entry, the others by either.
fn hear(running: Running, said: Said, c: Chance, packet: &mut [u8]) -> Answer {
    let (bytes, length) = spelled(said, c);
    let lent = said.cut.unwrap_or(length);
    let message = &bytes[..lent.min(64)];
    if said.message_type.is_event() || c.below(4) == 0 {
        running.handle_event_receive(time(c.next()), message, packet)
    } else {
        running.handle_general_receive(message, packet)
    }
}

pub(crate) fn bring(running: Running, event: Happening, packet: &mut [u8]) -> Answer {
    let id = event.id;
    let c = event.seed;
    let context = match event.what {
        What::Heard(message) => return hear(running, message.said(id), c, packet),
        What::RequestDue => return running.handle_delay_request_timer(draw(c), packet),
        What::FilterAnswers => return running.handle_filter_update(update(c), packet),
        What::DelayReqLeft => Context::DelayReq { id },
        What::PDelayReqLeft => Context::PDelayReq { id },
        What::PDelayRespLeft => Context::PDelayResp {
            id,
            requester: says::STRANGER,
        },
    };
    running.handle_send_timestamp(context, time(c), packet)
}
