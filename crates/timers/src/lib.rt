// The timers, in nanoseconds (document 01, 'Units'). A log interval is a byte in two's complement, as
// on the wire.
#![tactic(auto)]

ghost use Rattle.std.specs.Prelude.{◌≡◌, ◌+◌, ◌*◌, ◌^◌, ◌≤◌, ◌<◌, true, pos, nat_abs, ◌-ℤ◌};
ghost use Rattle.timers.specs.Timers.{interval, in_interval, in_draw, odd_of, to_nearest, sync_timer_of, delay_timer_of};

// What a timer can't be made of: a log interval, or else a draw, that is out of its limits.
#[derive(Clone, Copy, Debug, PartialEq, Eq)]
pub enum TimerError {
    Interval,
    Draw,
}

// Whether a log interval is within -9 to 16.
#[tactic(auto, using(crate::proofs::TimerLaws::interval_is_cast), unfolding(crate::specs::Timers::in_interval))]
pub fn is_interval(n: u8) -> bool
    ensures { result ≡ in_interval (interval n) }
{
    let n = n.cast_signed();
    (-9 <= n) & (n <= 16)
}

// Whether a draw is below 2^52.
pub fn is_draw(k: u64) -> bool
    ensures { result ≡ in_draw k }
{
    k < 0x10_0000_0000_0000
}

// 17 less the log interval.
#[tactic(auto, using(crate::proofs::TimerLaws::interval_is_cast), unfolding(crate::specs::Timers::in_interval))]
fn shift_of(n: u8) -> u64
    requires { in_interval (interval n) ≡ true }
    ensures { (result + 35 ≡ nat_abs (pos 52 -ℤ interval n)) × (1 ≤ result) × (result ≤ 26) }
{
    u64::from((17 - n.cast_signed()).unsigned_abs())
}

// The sync timer: 2^n seconds.
#[tactic(auto, unfolding(crate::specs::Timers::sync_timer_of))]
pub fn sync_timer(n: u8) -> Result<u64, TimerError>
    ensures { result ≡ sync_timer_of n }
{
    if !is_interval(n) {
        return Err(TimerError::Interval);
    }
    // 10^9 is 5^9 * 2^9, and 26 less the shift is n + 9
    let up = 26 - shift_of(n);
    let timer = 1_953_125 << up;
    Ok(timer)
}

// The delay timer by a shift that is 17 less the log interval.
#[tactic(auto, using(crate::proofs::TimerLaws::nearest_half, crate::proofs::TimerLaws::product_small))]
fn drawn(k: u64, shift: u64) -> u64
    requires { (k < 2 ^ 52) × (1 ≤ shift) × (shift ≤ 26) }
    ensures { result ≡ to_nearest (odd_of k * 10 ^ 9) (2 ^ (shift + 35)) }
{
    // the product has 83 bits
    let product = u128::from(2 * k + 1) * 1_000_000_000;
    let half = 1u128 << (shift + 34);
    let timer = (product + half) >> (shift + 35);
    // below 2^48
    timer as u64
}

// The delay timer for the draw k: (2 k + 1) * 10^9 * 2^(n - 52), to the nearest.
#[tactic(auto, unfolding(crate::specs::Timers::delay_timer_of, crate::specs::Timers::delay_timer, crate::specs::Timers::in_draw))]
pub fn delay_timer(n: u8, k: u64) -> Result<u64, TimerError>
    ensures { result ≡ delay_timer_of n k }
{
    if !is_interval(n) {
        return Err(TimerError::Interval);
    }
    if !is_draw(k) {
        return Err(TimerError::Draw);
    }
    Ok(drawn(k, shift_of(n)))
}
