// Numbers in bytes, big-endian, read and written: one loop each way for every width.
#![tactic(auto)]

ghost use Rattle.std.specs.Prelude.{◌≡◌, ◌+◌, ◌^◌, ◌≤◌, ◌<◌, length};
ghost use Rattle.octets.specs.Bytes.{number, put};

pub fn get(s: &[u8], at: usize, width: usize) -> u64
    requires { (at + width ≤ length s.now) × (width ≤ 8) }
    ensures { (result ≡ number at width s.now) × (result < 256 ^ width) }
{
    let mut r: u64 = 0;
    for byte in &s[at..at + width] {
        r = r * 256 + u64::from(*byte);
    }
    r
}

// The casts lose nothing, as the width bounds each number, and the check proves it: try_from would test it once more.
// Stay six: lines over `get` and `put`, one for each type: a trait with six impls would be longer, and its callers would name the type instead.
#[tactic(auto, unfolding(crate::specs::Bytes::number))]
pub fn get_u8(s: &[u8], at: usize) -> u8
    requires { at + 1 ≤ length s.now }
    ensures { result ≡ number at 1 s.now }
{
    s[at]
}

pub fn get_u16(s: &[u8], at: usize) -> u16
    requires { at + 2 ≤ length s.now }
    ensures { result ≡ number at 2 s.now }
{
    get(s, at, 2) as u16
}

pub fn get_u32(s: &[u8], at: usize) -> u32
    requires { at + 4 ≤ length s.now }
    ensures { result ≡ number at 4 s.now }
{
    get(s, at, 4) as u32
}

pub fn get_u64(s: &[u8], at: usize) -> u64
    requires { at + 8 ≤ length s.now }
    ensures { result ≡ number at 8 s.now }
{
    get(s, at, 8)
}

// What does not fit the width is cut at the high end.
pub fn put(buf: &mut [u8], at: usize, width: usize, value: u64)
    requires { at + width ≤ length buf.old }
    ensures { buf.new ≡ put at width value buf.old }
{
    let mut v = value;
    for i in (0..width).rev() {
        // a rest below 256
        buf[at + i] = (v % 256) as u8;
        v /= 256;
    }
}

pub fn put_u8(buf: &mut [u8], at: usize, v: u8)
    requires { at + 1 ≤ length buf.old }
    ensures { buf.new ≡ put at 1 v buf.old }
{
    put(buf, at, 1, u64::from(v));
}

pub fn put_u16(buf: &mut [u8], at: usize, v: u16)
    requires { at + 2 ≤ length buf.old }
    ensures { buf.new ≡ put at 2 v buf.old }
{
    put(buf, at, 2, u64::from(v));
}
