// The sensor record. Names are the Rust's (devices/bma150.rs).
use deadlines::Deadlines;
use i2c::types::{Levels, State};
use interrupts::Interrupts;
use nv::WriteCycle;
use reads::Reads;
use sampling::types::{Input, Sampling};
use spi::types::Frame;
use time::Time;

// The supply is below 2400 mV: since when, and whether it met 0 mV (the Rust's `unpowered_since` and `cold`).
#[derive(Clone, Copy)]
pub struct Outage {
    pub since: Time,
    pub cold: bool,
}

// What a loss of supply leaves alone beside the stored bytes: acceleration and temperature, and the levels of the I2C lines
// after the last accepted pin report. A start sets it anew.
#[derive(Clone, Copy)]
pub struct Kept {
    pub input: Input,
    pub lines: Levels,
}

// A stored write that runs: when it began, its address and the wanted byte.
#[derive(Clone, Copy)]
pub struct StoredWrite {
    pub cycle: WriteCycle,
    pub address: u8,
    pub value: u8,
}

// `writing` is the stored write that runs, if one does (the Rust's `nv_operation`); `outage` is there while the supply is away.
#[derive(Clone, Copy)]
pub struct Sensor {
    pub registers: [u8; 62],
    pub nonvolatile: [u8; 19],
    pub frame: Frame,
    pub i2c: State,
    pub reads: Reads,
    pub kept: Kept,
    pub sampling: Sampling,
    pub deadlines: Deadlines,
    pub writing: Option<StoredWrite>,
    pub interrupts: Interrupts,
    pub outage: Option<Outage>,
}

// Whether the value of an acceleration is the mean of a full window or a single code.
#[derive(Clone, Copy, PartialEq, Eq)]
pub enum Mark {
    Mean,
    Single,
}

// What a register shows to a view: its byte, and the mark of an acceleration. Where the byte is withheld there is none of this.
#[derive(Clone, Copy, PartialEq, Eq)]
pub struct Viewed {
    pub byte: u8,
    pub mark: Option<Mark>,
}

// A byte fetched to be sent.
#[derive(Clone, Copy)]
pub struct Fetched {
    pub sensor: Sensor,
    pub sent: Option<u8>,
}
