// Timestamps and port identities, each a field of ten bytes from a place on: read and written.
ghost use Rattle.std.specs.Prelude.{◌≡◌, ◌+◌, ◌≤◌, length};
ghost use Rattle.octets.specs.Bytes.{puts};
ghost use Rattle.wire.specs.Layout.{timestamp_at, identity_at, timestamp_entries, identity_entries};

use crate::Identity;
use time::WireTimestamp;

// Stay two pairs, one for each type: a trait with two impls would be longer, and each is called by its type.
pub fn get_timestamp(s: &[u8], at: usize) -> WireTimestamp
    requires { at + 10 ≤ length s.now }
    ensures { result ≡ timestamp_at at s.now }
{
    WireTimestamp {
        seconds: octets::get(s, at, 6),
        nanos: octets::get_u32(s, at + 6),
    }
}

pub fn get_identity(s: &[u8], at: usize) -> Identity
    requires { at + 10 ≤ length s.now }
    ensures { result ≡ identity_at at s.now }
{
    Identity {
        clock: octets::get_u64(s, at),
        port: octets::get_u16(s, at + 8),
    }
}

#[tactic(auto, unfolding(crate::specs::Layout::timestamp_entries, octets::specs::Bytes::puts))]
pub fn put_timestamp(buf: &mut [u8], at: usize, w: WireTimestamp)
    requires { at + 10 ≤ length buf.old }
    ensures { buf.new ≡ puts (timestamp_entries at w) buf.old }
{
    octets::put(buf, at, 6, w.seconds);
    octets::put(buf, at + 6, 4, u64::from(w.nanos));
}

pub fn put_identity(buf: &mut [u8], at: usize, who: Identity)
    requires { at + 10 ≤ length buf.old }
    ensures { buf.new ≡ puts (identity_entries at who) buf.old }
{
    octets::put(buf, at, 8, who.clock);
    octets::put_u16(buf, at + 8, who.port);
}
