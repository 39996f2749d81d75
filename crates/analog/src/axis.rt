// A step of the stage (`Axis` of analog.rs), and the three axes.
ghost use Rattle.std.specs.Prelude.{◌≡◌};
ghost use Rattle.analog.specs.Axis as Ax;
ghost use Rattle.analog.specs.Theorems.Bounds.{Below};

use crate::decay::{Q, factors};
use crate::types::{Acceleration, Analog, Axes, Axis, Factors};
use crate::wide::{low_64, round};
use time::{Duration, Time};

// A millionth of g.
const SIGNAL: u32 = 1 << 24;

// An acceleration in the axis's units.
fn target_of(input: i32) -> i64
    ensures { result ≡ Ax.target input }
{
    i64::from(input) * i64::from(SIGNAL)
}

// It stands still on the input.
fn stands_on(a: Axis, input: i32) -> bool
    ensures { result ≡ Ax.stands_on a input }
{
    a.output == target_of(input) && a.velocity == 0
}

// One step, by what remains of distance and velocity.
#[tactic(auto, unfolding(crate::specs::Axis::stepped))]
fn step(a: Axis, now: Time, input: i32, f: Factors) -> Axis
    requires { Below f }
    ensures { result ≡ Ax.stepped a now input f }
{
    let (r, i) = (i128::from(f.re), i128::from(f.im));
    let target = i128::from(target_of(input));
    let delta = i128::from(a.output) - target;
    let velocity = i128::from(a.velocity);
    Axis {
        at: now,
        output: low_64(target + round((r + i) * delta + i * velocity, Q)),
        velocity: low_64(round((r - i) * velocity - 2 * i * delta, Q)),
    }
}

impl Axis {
    pub fn at_rest(now: Time) -> Axis
        ensures { result ≡ Ax.at_rest now }
    {
        Axis {
            at: now,
            output: 0,
            velocity: 0,
        }
    }

    pub fn resume(self, now: Time) -> Axis
        ensures { result ≡ Ax.resumed self now }
    {
        Axis { at: now, ..self }
    }

    // The axis at a later moment; its input was constant until then.
    #[tactic(auto, unfolding(crate::specs::Axis::advanced))]
    pub fn advance(self, now: Time, input: i32) -> Axis
        ensures { result ≡ Ax.advanced self now input }
    {
        let d = now.since(self.at);
        if d == Duration(0, 0) || stands_on(self, input) {
            return self.resume(now);
        }
        step(self, now, input, factors(d))
    }

    // The same for a sample: most often the axis stands on its input, and no call is made. By `advance` alone the waits of
    // 40 s take 119 ms for 109 (decision 82).
    #[tactic(auto, unfolding(crate::specs::Axis::advanced))]
    pub fn sample(self, now: Time, input: i32) -> Axis
        ensures { result ≡ Ax.advanced self now input }
    {
        if stands_on(self, input) {
            return self.resume(now);
        }
        self.advance(now, input)
    }

    // The lagged acceleration in millionths of g.
    #[tactic(auto, unfolding(crate::specs::Axis::value))]
    pub fn value(self) -> i64
        ensures { result ≡ Ax.value self }
    {
        low_64(round(self.output.into(), SIGNAL.into()))
    }
}

#[tactic(auto, unfolding(crate::specs::Axis::turned))]
fn turned(a: Axis, now: Time, old: i32, new: i32) -> Axis
    ensures { result ≡ Ax.turned a now old new }
{
    if old == new {
        return a;
    }
    a.advance(now, old)
}

impl Analog {
    pub fn at_rest(now: Time) -> Analog
        ensures { result ≡ Ax.rest now }
    {
        Axes::of(Axis::at_rest(now))
    }

    pub fn resume(self, now: Time) -> Analog
        ensures { result ≡ Ax.all_resumed self now }
    {
        self.map(|a| a.resume(now))
    }

    // Every axis advances to this moment with its input (the Rust's `hold_analog`).
    #[tactic(auto, unfolding(crate::specs::Axis::hold))]
    pub fn hold(self, now: Time, input: Acceleration) -> Analog
        ensures { result ≡ Ax.hold self now input }
    {
        self.zip_with(input, |a, input| a.advance(now, input))
    }

    // Every axis whose input changes advances with the old one.
    #[tactic(auto, unfolding(crate::specs::Axis::all_turned))]
    pub fn turn(self, now: Time, old: Acceleration, new: Acceleration) -> Analog
        ensures { result ≡ Ax.all_turned self now old new }
    {
        let inputs = old.zip_with(new, |old, new| (old, new));
        self.zip_with(inputs, |a, (old, new)| turned(a, now, old, new))
    }
}

impl<T: Copy> Axes<T> {
    // The same for each axis.
    fn of(each: T) -> Axes<T>
        ensures { (result.x ≡ each) × (result.y ≡ each) × (result.z ≡ each) }
    {
        Axes {
            x: each,
            y: each,
            z: each,
        }
    }

    // What a function gives of each axis.
    fn map<U, F: Fn(T) -> U>(self, f: F) -> Axes<U>
        requires { F.IsAlwaysCallable f }
        ensures { F.post f self.x result.x × F.post f self.y result.y × F.post f self.z result.z }
    {
        Axes {
            x: f(self.x),
            y: f(self.y),
            z: f(self.z),
        }
    }

    // What a function gives of the two values of each axis, the one here and the one there.
    fn zip_with<U: Copy, V, F: Fn(T, U) -> V>(self, there: Axes<U>, f: F) -> Axes<V>
        requires { F.IsAlwaysCallable f }
        ensures { F.post f self.x there.x result.x × F.post f self.y there.y result.y × F.post f self.z there.z result.z }
    {
        Axes {
            x: f(self.x, there.x),
            y: f(self.y, there.y),
            z: f(self.z, there.z),
        }
    }

    // The axis of a number, z from 2 on. No enum of three: a type of three values would narrow what a caller may hand in.
    #[tactic(auto, unfolding(crate::specs::Axis::axis_of))]
    pub fn axis(self, axis: u8) -> T
        ensures { result ≡ Ax.axis_of self axis }
    {
        match axis {
            0 => self.x,
            1 => self.y,
            _ => self.z,
        }
    }

    // Another value for the axis of a number, which is one as in `axis`.
    #[tactic(auto, unfolding(crate::specs::Axis::with_axis))]
    pub fn with_axis(self, axis: u8, a: T) -> Axes<T>
        ensures { result ≡ Ax.with_axis self axis a }
    {
        match axis {
            0 => Axes { x: a, ..self },
            1 => Axes { y: a, ..self },
            _ => Axes { z: a, ..self },
        }
    }
}
