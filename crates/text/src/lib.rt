// Text written onto a lent page: bytes, and numbers as digits. Where the page ends nothing more is written, so no method demands anything of
// its caller.
#![tactic(auto, using(crate::specs::PageLaws::typed_append))]

ghost use Rattle.std.specs.Prelude.{◌≤◌, ◌<◌, ◌≡◌, [], ◌∷◌, length};
ghost use Rattle.text.specs.Lent.{Writes};
ghost use Rattle.text.specs.Digits.{decimal_of, glyph_of, hex_in, hex_of};
ghost use Rattle.text.specs.Laying.{digits_in};

// A lent buffer, and the place where the next byte goes.
#[derive(Drop)]
pub struct Page<'a> {
    pub buffer: &'a mut [u8],
    pub at: usize,
}

impl<'a> Page<'a> {
    #[tactic(auto, unfolding(crate::specs::Page::typed_one))]
    pub fn put(&mut self, x: u8)
        ensures { Writes self.old (x ∷ []) self.new }
    {
        if self.at < self.buffer.len() {
            self.buffer[self.at] = x;
            self.at += 1;
        }
    }

    pub fn copy(&mut self, s: &[u8])
        ensures { Writes self.old s.now self.new }
    {
        // a page of the loop's own, whose place stays out of the memory that the loop stores to
        let mut page = Page {
            buffer: self.buffer,
            at: self.at,
        };
        for byte in s {
            page.put(*byte);
        }
        self.at = page.at;
    }

    // Two bytes, by one test where both have room.
    #[inline(always)]
    #[tactic(auto, using(crate::proofs::LayingLaws::typed_two))]
    fn pair(&mut self, x: u8, y: u8)
        ensures { Writes self.old (x ∷ (y ∷ [])) self.new }
    {
        if self.at < self.buffer.len().saturating_sub(1) {
            self.buffer[self.at] = x;
            self.buffer[self.at + 1] = y;
            self.at += 2;
        } else {
            self.put(x);
            self.put(y);
        }
    }

    // The last k digits of n. Those that have no room are left out.
    fn digits<const BASE: u64>(&mut self, k: usize, n: u64)
        requires { (2 ≤ BASE) × (BASE ≤ 16) }
        ensures { Writes self.old (digits_in BASE k n) self.new }
    {
        if self.at < self.buffer.len() {
            let fits = k.min(self.buffer.len() - self.at);
            let mut rest = n;
            for _left in (fits..k).rev() {
                rest /= BASE;
            }
            lay::<BASE>(&mut self.buffer[self.at..self.at + fits], rest);
            self.at += fits;
        }
    }

    // Without leading zeros.
    #[tactic(auto, using(crate::proofs::LayingLaws::decimal_one, crate::proofs::LayingLaws::decimal_many))]
    pub fn decimal(&mut self, n: u64)
        ensures { Writes self.old (decimal_of n) self.new }
    {
        if n < 10 {
            // a digit: no From narrows
            self.put(b'0' + n as u8);
        } else {
            // at most 20: a u32 has no From into usize
            self.digits::<10>(n.ilog10() as usize + 1, n);
        }
    }

    // The last k hexadecimal digits of n.
    #[tactic(auto, using(crate::proofs::LayingLaws::hex_digits))]
    pub fn hex(&mut self, k: usize, n: u64)
        ensures { Writes self.old (hex_in k n) self.new }
    {
        self.digits::<16>(k, n);
    }

    // Bytes, in two hexadecimal digits each.
    pub fn bytes(&mut self, s: &[u8])
        ensures { Writes self.old (hex_of s.now) self.new }
    {
        // as in copy
        let mut page = Page {
            buffer: self.buffer,
            at: self.at,
        };
        for byte in s {
            let n = usize::from(*byte);
            page.pair(glyph(n / 16), glyph(n % 16));
        }
        self.at = page.at;
    }
}

// The last digits of n, as many as there are places: from the last one on, a loop of stores.
fn lay<const BASE: u64>(out: &mut [u8], n: u64)
    requires { (2 ≤ BASE) × (BASE ≤ 16) }
    ensures { out.new ≡ digits_in BASE (length out.old) n }
{
    let mut m = n;
    for i in (0..out.len()).rev() {
        // below 16: a u64 has no From into usize
        out[i] = glyph((m % BASE) as usize);
        m /= BASE;
    }
}

// A digit, by a table.
#[inline(always)]
#[tactic(auto, using(crate::specs::DigitsLaws::looked_up))]
fn glyph(d: usize) -> u8
    requires { d < 16 }
    ensures { result ≡ glyph_of d }
{
    let glyphs = b"0123456789abcdef";
    glyphs[d]
}
