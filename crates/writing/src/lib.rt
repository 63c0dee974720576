// Any header and body written as a message, with one answer.
#![tactic(auto)]

ghost use Rattle.std.specs.Prelude.{◌≡◌, ◌≤◌, true, ◌++◌, length, drop};
ghost use Rattle.wire.specs.Layout.{row, type_of, message_bytes};
ghost use Rattle.writing.specs.Writing.{fits_of, write_of, left_of};

mod bodies;
mod fits;
mod headers;

use wire::{Body, Header};

// Why a message isn't written: the buffer is too short for it, or header and body do not go together or do not fit
// their places.
#[derive(Clone, Copy, Debug, PartialEq, Eq)]
pub enum WriteError {
    Short,
    Unfit,
}

// The header, and then the body into the rest.
fn lay(packet: &mut [u8], header: Header, body: Body)
    requires { (fits_of header body ≡ true) × ((row (type_of body)).length ≤ length packet.old) }
    ensures { packet.new ≡ message_bytes header body ++ drop (row (type_of body)).length packet.old }
{
    let t = body.message_type();
    headers::write_header(packet, header, t.control());
    bodies::write_body(&mut packet[34..], body);
}

// Writes a message at the front of a packet buffer, and answers its length; what lies behind it stays. What is refused
// leaves the whole buffer as it was.
#[tactic(auto, unfolding(crate::specs::Writing::write_of, crate::specs::Writing::left_of))]
pub fn write(packet: &mut [u8], header: Header, body: Body) -> Result<usize, WriteError>
    ensures { (result ≡ write_of header body (length packet.old)) × (packet.new ≡ left_of header body packet.old) }
{
    if !fits::fits(header, body) {
        return Err(WriteError::Unfit);
    }
    let t = body.message_type();
    let n = usize::from(t.length());
    if packet.len() < n {
        return Err(WriteError::Short);
    }
    lay(packet, header, body);
    Ok(n)
}
