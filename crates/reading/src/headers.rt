// The header of 34 bytes, read.
ghost use Rattle.std.specs.Prelude.{◌≡◌, ◌≤◌, length};
ghost use Rattle.wire.specs.Layout.{header_of};

use wire::{Header, fields};

pub(crate) fn header_at(s: &[u8]) -> Header
    requires { 34 ≤ length s.now }
    ensures { result ≡ header_of s.now }
{
    let first = octets::get_u8(s, 0);
    let second = octets::get_u8(s, 1);
    let source = fields::get_identity(s, 20);
    Header {
        major_sdo: first / 16,
        kind: first % 16,
        minor: second / 16,
        version: second % 16,
        length: octets::get_u16(s, 2),
        domain: octets::get_u8(s, 4),
        minor_sdo: octets::get_u8(s, 5),
        flags: octets::get_u16(s, 6),
        correction: octets::get_u64(s, 8),
        source,
        id: octets::get_u16(s, 30),
        interval: octets::get_u8(s, 33),
    }
}
