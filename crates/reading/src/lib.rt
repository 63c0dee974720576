// A message read from any bytes, with one answer (document 01, rows 4 and 5 of its table).
#![tactic(auto)]

ghost use Rattle.std.specs.Prelude.{◌≡◌};
ghost use Rattle.reading.specs.Reading.{read_of};

mod bodies;
mod headers;

use time::Time;
use wire::{Body, Header, Kind};

// What bytes are: a message, with the time that its timestamp means; or a message that is the host's.
#[derive(Clone, Copy)]
pub enum Received {
    Message {
        header: Header,
        body: Body,
        time: Time,
    },
    Host {
        header: Header,
    },
}

// What is no message of this version, by row 4 of the table, or is malformed, by row 5.
#[derive(Clone, Copy, Debug, PartialEq, Eq)]
pub enum ReadError {
    Version,
    Malformed,
}

// Reads the message that s begins with.
pub fn read(s: &[u8]) -> Result<Received, ReadError>
    ensures { result ≡ read_of s.now }
{
    let n = s.len();
    if n < 2 {
        return Err(ReadError::Version);
    }
    let second = octets::get_u8(s, 1);
    if second % 16 != 2 {
        return Err(ReadError::Version);
    }
    if n < 34 {
        return Err(ReadError::Malformed);
    }
    let header = headers::header_at(s);
    let stated = usize::from(header.length);
    if (stated < 34) | (n < stated) {
        return Err(ReadError::Malformed);
    }
    match Kind::from(header.kind) {
        Kind::Table(t) => bodies::message_at(s, t, header),
        Kind::Host => Ok(Received::Host { header }),
        Kind::Reserved => Err(ReadError::Malformed),
    }
}
