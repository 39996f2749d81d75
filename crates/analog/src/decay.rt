// What remains after a length of time (`decay` of analog.rs).
ghost use Rattle.std.specs.Prelude.{◌≡◌, ℕ, ◌*◌, ◌/◌, ◌^◌, ◌<◌, ◌≤◌, ◌⊎◌, pos, ◌*ℤ◌, unsigned_abs};
ghost use Rattle.laws.specs.Iterate.{iterate};
ghost use Rattle.time.specs.Time.{lasts};
ghost use Rattle.analog.specs.Round as R;
ghost use Rattle.analog.specs.Decay as D;
ghost use Rattle.analog.specs.Theorems.Bounds.{Below};

use crate::types::{Factors, Series};
use crate::wide::round;
use time::{Duration, SCAN};

// One.
pub(crate) const Q: u64 = 1 << 48;

// √2 · π · 1500 per second, with 32 bits after the point.
const K: u128 = 28623055379020;

// The two lengths from one sample of an axis to its next.
const PERIOD: u64 = SCAN;

const LONGER: u64 = PERIOD + 1;

// 8 ms.
const SETTLING: u64 = ((8u128 << 64) / 1000) as u64;

// What remains after either length from a sample to the next.
const COMMON: Factors = Factors {
    re: -18490024998952,
    im: 24289896676780,
};

// What remains after 8 ms or more.
const NOTHING: Factors = Factors { re: 0, im: 0 };

// One, as a complex number; by `as`, since a constant's value can make no call.
const ONE: Factors = Factors {
    re: Q as i64,
    im: 0,
};

// The series before its first term: a sum of 1, and a term of 1.
const FIRST: Series = Series {
    sum: ONE,
    last: ONE,
};

// An angle of at most a sixteenth, at which the series is good.
#[derive(Clone, Copy)]
pub(crate) struct Angle {
    pub(crate) size: u64,
    ghost small: { size ≤ 2 ^ 44 },
}

// x times the angle, divided by 2^48 · n, rounded. It works on the size and divides by 2^48 with a shift: `round` would divide 128 bits by
// a variable, and a setting that moves would take twice the time.
fn share(x: i64, angle: Angle, n: u64) -> i64
    requires { (unsigned_abs x ≤ 2 ^ 50) × (0 < n) × (n ≤ 12) }
    ensures { (result ≡ R.round (x *ℤ pos angle.size) (D.unit * n)) × (unsigned_abs result ≤ 2 ^ 47) }
{
    let product = u128::from(x.unsigned_abs()) * u128::from(angle.size);
    let size = ((product + u128::from(n * (Q / 2))) >> 48) as u64 / n;
    let size = size.cast_signed();
    if x < 0 { -size } else { size }
}

// The next term of the series, and the sums with it.
#[tactic(auto, unfolding(crate::specs::Decay::term))]
fn term(s: Series, angle: Angle, n: u64) -> Series
    requires { (unsigned_abs s.last.re ≤ 2 ^ 48) × (unsigned_abs s.last.im ≤ 2 ^ 48) × (unsigned_abs s.sum.re ≤ 13 * 2 ^ 48) × (unsigned_abs s.sum.im ≤ 13 * 2 ^ 48) × (0 < n) × (n ≤ 12) }
    ensures { result ≡ D.term angle.size n s }
{
    let Series { sum, last } = s;
    let re = share(-last.re - last.im, angle, n);
    let im = share(last.re - last.im, angle, n);
    Series {
        sum: Factors {
            re: sum.re + re,
            im: sum.im + im,
        },
        last: Factors { re, im },
    }
}

// The sum of the first twelve terms.
#[tactic(auto, unfolding(crate::specs::Decay::terms))]
fn series(angle: Angle) -> Factors
    ensures { result ≡ D.series angle.size }
{
    let mut s = FIRST;
    for n in 1..13 {
        s = term(s, angle, n);
    }
    s.sum
}

// The square of a complex number.
#[tactic(auto, unfolding(crate::specs::Decay::squared))]
fn square(f: Factors) -> Factors
    requires { Below f × Below (D.squared f) }
    ensures { result ≡ D.squared f }
{
    let (re, im) = (i128::from(f.re), i128::from(f.im));
    Factors {
        re: round(re * re - im * im, Q) as i64,
        im: round(2 * re * im, Q) as i64,
    }
}

// An angle, halved until it is at most a sixteenth, and how many times.
fn halved(angle: u64) -> (Angle, u8)
    requires { angle < 2 ^ 54 }
    ensures { (D.reduced D.most_halvings angle ≡ iterate result.1 D.squared (D.series result.0.size)) × (result.1 ≤ 10) × (result.1 ≡ 0 ⊎ 2 ^ 43 ≤ result.0.size) }
{
    let mut size = angle;
    let mut squares = 0;
    while size > Q / 16 {
        size /= 2;
        squares += 1;
    }
    (Angle { size }, squares)
}

// Squared n times.
#[tactic(auto, unfolding(laws::specs::Iterate::iterate))]
fn raised(f: Factors, squares: u8) -> Factors
    requires { (k : ℕ) → k ≤ squares → Below (iterate k D.squared f) }
    ensures { result ≡ iterate squares D.squared f }
{
    let mut g = f;
    for _ in 0..squares {
        g = square(g);
    }
    g
}

// What remains after a length, in units of 2^-64 s.
#[tactic(auto, using(crate::proofs::Theorems::Bounds::decay_nothing))]
fn decay(dt: u64) -> Factors
    ensures { result ≡ D.decay dt }
{
    if dt >= SETTLING {
        return NOTHING;
    }
    let (angle, squares) = halved(((u128::from(dt) * K) >> 48) as u64);
    raised(series(angle), squares)
}

// What remains after a length of time; for the two lengths from a sample to the next it is a constant.
#[tactic(auto, using(crate::proofs::Theorems::Bounds::decay_nothing, crate::proofs::Theorems::Common::one_of_two, crate::proofs::Theorems::Common::factors_are_decay, crate::proofs::Theorems::Common::factors_common))]
pub(crate) fn factors(d: Duration) -> Factors
    ensures { result ≡ D.factors (lasts d) }
{
    match d {
        Duration(0, PERIOD..=LONGER) => COMMON,
        Duration(0, dt) => decay(dt),
        _ => NOTHING,
    }
}
