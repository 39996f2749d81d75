// The stage's record, and the numbers of a step (devices/bma150/analog.rs).
use time::Time;

// What there is for each of the three axes.
#[derive(Clone, Copy, Debug, PartialEq, Eq)]
pub struct Axes<T> {
    pub x: T,
    pub y: T,
    pub z: T,
}

// An acceleration in millionths of g (`Acceleration` of signals.rs).
pub type Acceleration = Axes<i32>;

// The stage of one axis: its moment, and the lagged acceleration and its rate of change in 2^-24 of a millionth of g.
#[derive(Clone, Copy, Debug, PartialEq, Eq)]
pub struct Axis {
    pub at: Time,
    pub output: i64,
    pub velocity: i64,
}

// The stages of the three axes (the Rust's `analog`).
pub type Analog = Axes<Axis>;

// What remains after a step: a complex number with 48 bits after the point. That both parts are small, `Below`, is no
// ghost field: the definitions of specs/ make factors of any two numbers.
#[derive(Clone, Copy, Debug, PartialEq, Eq)]
pub struct Factors {
    pub re: i64,
    pub im: i64,
}

// A sum of terms, and its last term.
#[derive(Clone, Copy, Debug, PartialEq, Eq)]
pub struct Series {
    pub sum: Factors,
    pub last: Factors,
}
