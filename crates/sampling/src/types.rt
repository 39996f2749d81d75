// What a sample phase needs and changes.
use analog::types::{Acceleration, Analog};
use filter::Filter;
use interrupts::Interrupts;
use time::Clock;

// The acceleration and the temperature in thousandths of a degree, as last set.
#[derive(Clone, Copy)]
pub struct Input {
    pub acceleration: Acceleration,
    pub temperature_millicelsius: i32,
}

// `test` tells how many phases the self test still lasts, while it runs (the Rust's `test_phases`). `means` says of each axis whether the
// value that it shows is the mean of a full window or a single code; it stands beside `filtered`, which the motion criterion takes whole.
#[derive(Clone, Copy)]
pub struct Sampling {
    pub filter: Filter,
    pub filtered: [i16; 3],
    pub means: [bool; 3],
    pub clock: Clock,
    pub analog: Analog,
    pub asleep: bool,
    pub auto_cycles: u16,
    pub test: Option<u8>,
    pub data_ready: bool,
}

// The part of the sensor that a sample phase changes.
#[derive(Clone, Copy)]
pub struct Acquisition {
    pub registers: [u8; 62],
    pub sampling: Sampling,
    pub interrupts: Interrupts,
}
