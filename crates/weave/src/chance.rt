// Numbers that look thrown and are the same in every run: multiply with carry, 32 bits a throw.
ghost use Rattle.std.specs.Prelude.{◌≡◌, ◌+◌, ◌*◌, ◌/◌, ◌%◌, ◌<◌, length};

#[derive(Clone, Copy)]
pub struct Chance {
    pub state: u64,
}

// The product, with what was carried before.
fn carried(low: u32, high: u32) -> u64
    ensures { result ≡ low * 4294957665 + high }
{
    u64::from(low) * 4_294_957_665 + u64::from(high)
}

impl Chance {
    // The state after a throw. The cast stays, as in thrown.
    pub(crate) fn next(self) -> Chance
        ensures { result.state ≡ self.state % 4294967296 * 4294957665 + self.state / 4294967296 }
    {
        let high = (self.state / 0x1_0000_0000) as u32;
        Chance {
            state: carried(self.thrown(), high),
        }
    }

    // What was thrown. The cast stays: Rust has no From to a narrower number, and the check proves that nothing is lost.
    pub(crate) fn thrown(self) -> u32
        ensures { result ≡ self.state % 4294967296 }
    {
        (self.state % 0x1_0000_0000) as u32
    }

    // What was thrown, brought below n. The cast stays: Rust has no From between u32 and usize.
    pub(crate) fn below(self, n: usize) -> usize
        requires { 0 < n }
        ensures { result < n }
    {
        self.thrown() as usize % n
    }

    // One of several, as was thrown.
    pub(crate) fn pick<T: Copy>(self, from: &[T]) -> T
        requires { 0 < length from.now }
    {
        from[self.below(from.len())]
    }

    // Two throws as a word.
    pub(crate) fn word(self) -> u64 {
        let low = self.next();
        u64::from(self.thrown()) * 0x1_0000_0000 + u64::from(low.thrown())
    }
}
