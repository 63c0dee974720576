// Document 01's table ('Numbers the port answers'), row by row: rows 1, 2 and 3, which every event passes first, and
// rows 4, 5, 6 and 8, which a message passes behind them.
#![tactic(auto)]

ghost use Rattle.std.specs.Prelude.{◌≡◌};
ghost use Rattle.reading.specs.Reading.{read_of};
ghost use Rattle.rules.specs.Given.{PortIn};
ghost use Rattle.rules.specs.Table.{ours};
ghost use Rattle.rows.specs.Rows.{gate_of, heard_of};

use reading::{ReadError, Received};
use record::{Config, Outcome, Port};
use time::Time;
use wire::{Body, Header};

// Whatever the event is, and whether it sends or not.
const LEAST_BUFFER: usize = 64;

// A message that is for us and has a handler here.
#[derive(Clone, Copy)]
pub struct Heard {
    pub header: Header,
    pub body: Body,
    pub time: Time,
}

// The room is the packet buffer's; limits is whether the event brings a time or a draw out of limits. What the types
// of a record say of its numbers is promised here once, for every message that is made of them.
#[tactic(auto, unfolding(crate::specs::Rows::gate_of))]
pub fn gate(port: Port, room: usize, limits: bool) -> Result<(), Outcome>
    ensures { (result ≡ gate_of port room limits) × PortIn port }
{
    if room < LEAST_BUFFER {
        return Err(Outcome::Buffer);
    }
    if fitness::is_unfit(port) {
        return Err(Outcome::Unfit);
    }
    if limits {
        return Err(Outcome::Limits);
    }
    Ok(())
}

// Whether a message is of our domain, and of our sdo id.
fn is_ours(config: Config, header: Header) -> bool
    ensures { result ≡ ours config header }
{
    let sdo = header.sdo_id();
    (sdo == config.sdo) & (header.domain == config.domain)
}

// The Rust's parse_and_filter. Row 6 comes before the message is looked at further, and before row 8.
pub fn parse_and_filter(config: Config, message: &[u8]) -> Result<Heard, Outcome>
    ensures { result ≡ heard_of config (read_of message.now) }
{
    match reading::read(message) {
        Ok(Received::Message { header, body, time }) if is_ours(config, header) => Ok(Heard {
            header,
            body,
            time,
        }),
        Ok(Received::Host { header }) if is_ours(config, header) => Err(Outcome::Host),
        Ok(_) => Err(Outcome::Foreign),
        Err(ReadError::Version) => Err(Outcome::Version),
        Err(ReadError::Malformed) => Err(Outcome::Malformed),
    }
}
