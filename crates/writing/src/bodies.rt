// The body, written into the part of the packet that lies behind its header.
ghost use Rattle.std.specs.Prelude.{◌≡◌, ◌≤◌, length};
ghost use Rattle.octets.specs.Bytes.{puts, size_of};
ghost use Rattle.wire.specs.Layout.{body_entries};

use wire::{Body, Rest, fields};

// The body into the part of the packet from byte 34 on.
pub(crate) fn write_body(part: &mut [u8], b: Body)
    requires { size_of (body_entries 0 b) ≤ length part.old }
    ensures { part.new ≡ puts (body_entries 0 b) part.old }
{
    fields::put_timestamp(part, 0, b.timestamp());
    match b.rest() {
        Rest::Nothing => {}
        Rest::Reserved => octets::put(part, 10, 10, 0),
        Rest::Requester(who) => fields::put_identity(part, 10, who),
    }
}
