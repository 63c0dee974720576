// The header of 34 bytes, written.
ghost use Rattle.std.specs.Prelude.{◌≡◌, ◌+◌, ◌*◌, ◌≤◌, ◌<◌, ◌++◌, length, take, drop};
ghost use Rattle.octets.specs.Bytes.{puts, bytes_of};
ghost use Rattle.wire.specs.Layout.{header_entries};

use wire::{Header, fields};

// A byte of two halves.
fn halves(h: u8, l: u8) -> u8
    requires { (h < 16) × (l < 16) }
    ensures { result ≡ h * 16 + l }
{
    h * 16 + l
}

// Both bounds are what a fit header has, asked by three functions of this file alone: a type for them would be made in one place.
// The first seven fields, to the end of the correction.
fn write_front(packet: &mut [u8], h: Header, control: u8)
    requires { (34 ≤ length packet.old) × (h.major_sdo < 16) × (h.kind < 16) × (h.minor < 16) × (h.version < 16) }
    ensures { packet.new ≡ puts (take 7 (header_entries h control)) packet.old }
{
    octets::put_u8(packet, 0, halves(h.major_sdo, h.kind));
    octets::put_u8(packet, 1, halves(h.minor, h.version));
    octets::put_u16(packet, 2, h.length);
    octets::put_u8(packet, 4, h.domain);
    octets::put_u8(packet, 5, h.minor_sdo);
    octets::put_u16(packet, 6, h.flags);
    octets::put(packet, 8, 8, h.correction);
}

// The others, from the reserved bytes on.
fn write_back(packet: &mut [u8], h: Header, control: u8)
    requires { 34 ≤ length packet.old }
    ensures { packet.new ≡ puts (drop 7 (header_entries h control)) packet.old }
{
    octets::put(packet, 16, 4, 0);
    fields::put_identity(packet, 20, h.source);
    octets::put_u16(packet, 30, h.id);
    octets::put_u8(packet, 32, control);
    octets::put_u8(packet, 33, h.interval);
}

pub(crate) fn write_header(packet: &mut [u8], h: Header, control: u8)
    requires { (34 ≤ length packet.old) × (h.major_sdo < 16) × (h.kind < 16) × (h.minor < 16) × (h.version < 16) }
    ensures { packet.new ≡ bytes_of (header_entries h control) ++ drop 34 packet.old }
{
    write_front(packet, h, control);
    write_back(packet, h, control);
}
