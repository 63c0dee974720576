// Two-word time (document 01, 'Units'): one unit is 2^-32 ns. Sums are exact or refused, never
// wrapped. Every public function answers every input, and promises one equation with a definition
// of specs/, where meanings stand in ℤ.
#![tactic(auto)]

ghost use Rattle.std.specs.Prelude.{◌≡◌, pos, ◌+ℤ◌, ◌-ℤ◌};
ghost use Rattle.time.specs.Units.{time, in_time, time_words, time_of, time_of_words, duration, duration_of, duration_words, time_of_wire, wire_of, correction, half_of};

// A time: 0 to 2^127 - 1 units, the high word first. Words with the top bit set spell a number that
// is no time; is_time tells, and each sum of them answers by the number they spell.
#[derive(Clone, Copy, PartialEq, Eq)]
pub struct Time {
    pub hi: u64,
    pub lo: u64,
}

// A duration: -2^127 to 2^127 - 1 units, the high word first, in two's complement.
#[derive(Clone, Copy, PartialEq, Eq)]
pub struct Duration {
    pub hi: u64,
    pub lo: u64,
}

// A timestamp of the wire. Its seconds have 48 bits there.
#[derive(Clone, Copy, PartialEq, Eq)]
pub struct WireTimestamp {
    pub seconds: u64,
    pub nanos: u32,
}

// A sum, a difference or a timestamp that leaves its range.
#[derive(Clone, Copy, Debug, PartialEq, Eq)]
pub enum TimeError {
    OutOfRange,
}

impl Time {
    // Whether the words are a time.
    #[tactic(auto, using(crate::proofs::Machine::top_bit))]
    pub fn is_time(self) -> bool
        ensures { result ≡ in_time (time self) }
    {
        let hi = self.hi;
        hi < 0x8000_0000_0000_0000
    }

    // The time of two words, the high one first; None where the top bit is set.
    #[tactic(auto, unfolding(crate::specs::Units::time_of_words, crate::specs::Units::time))]
    pub fn of_words(hi: u64, lo: u64) -> Option<Time>
        ensures { result ≡ time_of_words hi lo }
    {
        let t = Time { hi, lo };
        if t.is_time() { Some(t) } else { None }
    }

    // The time that a timestamp means. Its seconds are out of range where they have no place in 48 bits.
    #[tactic(auto, unfolding(crate::specs::Units::time_of_wire, crate::specs::Units::wire))]
    pub fn of_wire(w: WireTimestamp) -> Result<Time, TimeError>
        ensures { result ≡ time_of_wire w }
    {
        if w.seconds < 0x1_0000_0000_0000 {
            let nanoseconds = u128::from(w.seconds) * 1_000_000_000 + u128::from(w.nanos);
            Ok(Time::words(nanoseconds << 32))
        } else {
            Err(TimeError::OutOfRange)
        }
    }

    // What is sent of this time: its timestamp, and the fraction of a nanosecond behind it, which goes into the correction
    // field, cut to 2^-16 ns. Out of range where the seconds have no place in 48 bits.
    // In words of 64 bits: the division of a u128 takes many times as long, and a master divides with each answer.
    pub fn to_wire(self) -> Result<(WireTimestamp, u16), TimeError>
        ensures { result ≡ wire_of (time self) }
    {
        let Time { hi, lo } = self;
        // a high word is 2^32 ns, so 2^16 * 10^9 of them are 2^48 seconds
        if hi < 65_536_000_000_000 {
            let low = hi % 1_000_000_000 * 0x1_0000_0000 + lo / 0x1_0000_0000;
            let seconds = hi / 1_000_000_000 * 0x1_0000_0000 + low / 1_000_000_000;
            // the casts lose nothing; try_from would be no plainer, for it has an Err that never comes
            let nanos = (low % 1_000_000_000) as u32;
            let fraction = (lo % 0x1_0000_0000 / 0x1_0000) as u16;
            Ok((WireTimestamp { seconds, nanos }, fraction))
        } else {
            Err(TimeError::OutOfRange)
        }
    }

    // The units, as one number.
    #[inline(always)]
    #[tactic(auto, unfolding(crate::specs::Units::time))]
    fn units(self) -> u128
        ensures { pos result ≡ time self }
    {
        (u128::from(self.hi) << 64) + u128::from(self.lo)
    }

    // The two words of so many units.
    #[inline(always)]
    fn words(units: u128) -> Time
        ensures { result ≡ time_words (pos units) }
    {
        // the casts lose nothing; try_from would be no plainer, for it has an Err that never comes
        Time {
            hi: (units >> 64) as u64,
            lo: (units % 0x1_0000_0000_0000_0000) as u64,
        }
    }

    // The time of so many units.
    #[inline(always)]
    #[tactic(auto, unfolding(crate::specs::Units::time_of, crate::specs::Units::time_of_words))]
    fn of_units(units: u128) -> Result<Time, TimeError>
        ensures { result ≡ time_of (pos units) }
    {
        let t = Time::words(units);
        Time::of_words(t.hi, t.lo).ok_or(TimeError::OutOfRange)
    }

    // This time plus a correction field, which is the 64-bit word of the wire. It and its twin, and the two minus, each have their own sum
    // in their clause.
    #[inline(always)]
    #[tactic(auto, using(crate::proofs::Machine::time_fits, crate::proofs::Machine::time_off))]
    pub fn plus_correction(self, c: u64) -> Result<Time, TimeError>
        ensures { result ≡ time_of (time self +ℤ correction c) }
    {
        let sum = self.units().checked_add_signed(correction_units(c));
        Time::of_units(sum.ok_or(TimeError::OutOfRange)?)
    }

    // This time less a correction field.
    #[inline(always)]
    #[tactic(auto, using(crate::proofs::Machine::time_fits, crate::proofs::Machine::time_off))]
    pub fn minus_correction(self, c: u64) -> Result<Time, TimeError>
        ensures { result ≡ time_of (time self -ℤ correction c) }
    {
        let difference = self.units().checked_sub_signed(correction_units(c));
        Time::of_units(difference.ok_or(TimeError::OutOfRange)?)
    }

    // This time less t.
    #[inline(always)]
    #[tactic(auto, using(crate::proofs::Machine::duration_fits, crate::proofs::Machine::duration_off))]
    pub fn minus(self, t: Time) -> Result<Duration, TimeError>
        ensures { result ≡ duration_of (time self -ℤ time t) }
    {
        let difference = self.units().checked_signed_diff(t.units());
        Ok(Duration::of_units(difference.ok_or(TimeError::OutOfRange)?))
    }
}

impl Duration {
    // The units, as one number.
    #[inline(always)]
    #[tactic(auto, using(crate::proofs::Machine::duration_is_cast))]
    fn units(self) -> i128
        ensures { result ≡ duration self }
    {
        ((u128::from(self.hi) << 64) + u128::from(self.lo)).cast_signed()
    }

    // The duration of so many units: every i128 is one.
    #[inline(always)]
    #[tactic(auto, using(crate::proofs::Machine::spelling_is_cast))]
    fn of_units(units: i128) -> Duration
        ensures { result ≡ duration_words units }
    {
        let word = units.cast_unsigned();
        // the casts lose nothing; try_from would be no plainer, for it has an Err that never comes
        Duration {
            hi: (word >> 64) as u64,
            lo: (word % 0x1_0000_0000_0000_0000) as u64,
        }
    }

    // This duration less d.
    #[inline(always)]
    #[tactic(auto, using(crate::proofs::Machine::duration_fits, crate::proofs::Machine::duration_off))]
    pub fn minus(self, d: Duration) -> Result<Duration, TimeError>
        ensures { result ≡ duration_of (duration self -ℤ duration d) }
    {
        let difference = self.units().checked_sub(d.units());
        Ok(Duration::of_units(difference.ok_or(TimeError::OutOfRange)?))
    }

    // Half of this, an odd unit dropped towards zero.
    #[inline(always)]
    #[tactic(auto, unfolding(crate::specs::Units::half, crate::specs::Units::half_of))]
    pub fn half(self) -> Duration
        ensures { result ≡ half_of self }
    {
        Duration::of_units(self.units() / 2)
    }
}

// A correction field in units.
#[inline(always)]
#[tactic(auto, using(crate::proofs::Machine::correction_is_cast))]
fn correction_units(c: u64) -> i128
    ensures { result ≡ correction c }
{
    i128::from(c.cast_signed()) * 65_536
}
