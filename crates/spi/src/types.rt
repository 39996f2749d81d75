// The types of the SPI frame. `Serial`, `Drive` and the fields of `Frame` have the Rust's names (devices/bma150.rs, signals.rs); the
// Rust has no types for the others.

// What the byte being received belongs to: an address byte, a read from a register on, a write to a register.
#[derive(Clone, Copy, PartialEq, Eq)]
pub enum Serial {
    Address,
    Read(u8),
    Write(u8),
}

// How a pin is driven.
#[derive(Clone, Copy, PartialEq, Eq)]
pub enum Drive {
    Floating,
    Low,
    High,
}

// An edge of the clock; the three-wire turnaround has a rise of its own.
#[derive(Clone, Copy, PartialEq, Eq)]
pub enum Clocked {
    Rise,
    Turnaround,
    Fall,
}

// `tx` is the byte being sent, or none: nothing was fetched yet, or `peek` withholds it. `rx` with `rx_bits` and I2C's `shift` with `bits`
// are the Rust's fields, a byte being received and its count: each bus counts by its own rule.
#[derive(Clone, Copy, PartialEq, Eq)]
pub struct Frame {
    pub serial: Serial,
    pub selected: bool,
    pub rx: u8,
    pub rx_bits: u8,
    pub tx: Option<u8>,
    pub tx_bit: u8,
    pub driven: Drive,
    pub turnaround: bool,
}

// The frame after a bit, and the register write that the bit completed: address and value. Without a write it is written out where it is
// made, three times: a conversion from a frame would not say that there is none.
#[derive(Clone, Copy, PartialEq, Eq)]
pub struct Taken {
    pub frame: Frame,
    pub write: Option<(u8, u8)>,
}

// What the output does at an edge: stays, first fetches a register's byte, or goes on with the byte being sent.
// `Stay` is a case and no `Option`: two functions match all three at once, and `Some` would name nothing.
#[derive(Clone, Copy, PartialEq, Eq)]
pub enum Shift {
    Stay,
    Fetch(u8),
    Next,
}
