// `round` and `as i64` of analog.rs, and a word's bits.
ghost use Rattle.std.specs.Prelude.{◌≡◌, ◌^◌, ◌<◌, ◌≤◌, unsigned_abs};
ghost use Rattle.analog.specs.Round as R;

// Half of the divisor away from zero, then the quotient towards zero.
pub(crate) fn round(n: i128, d: u64) -> i128
    requires { (unsigned_abs n ≤ 2 ^ 126) × (0 < d) }
    ensures { (result ≡ R.round n d) × (unsigned_abs result ≤ unsigned_abs n) }
{
    let half = i128::from(d / 2);
    (if n < 0 { n - half } else { n + half }) / i128::from(d)
}

// The lowest 64 bits, as a signed number: the Rust's `as i64`.
pub(crate) fn low_64(z: i128) -> i64
    ensures { result ≡ R.low_64 z }
{
    from_bits((z.cast_unsigned() & 0xffff_ffff_ffff_ffff) as u64)
}

// A word's bits in two's complement: std's cast, with the definition for a contract, as the one below. `leaves` compares words by them.
#[tactic(auto, unfolding(crate::specs::Round::bits_64))]
pub fn bits(z: i64) -> u64
    ensures { result ≡ R.bits_64 z }
{
    z.cast_unsigned()
}

#[tactic(auto, unfolding(crate::specs::Round::signed_64))]
pub fn from_bits(x: u64) -> i64
    ensures { result ≡ R.signed_64 x }
{
    x.cast_signed()
}
