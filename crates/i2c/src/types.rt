// The types of the I2C engine. `Receive`, `Following`, `Phase` and `State` have the Rust's names (bma150/i2c.rs); the others stand for
// its arrays, its `Option<bool>`, its tests of the lines and its calls of the sensor.

// The two lines, true where high: the clock (the part's SCK) and the data (its SDI).
#[derive(Clone, Copy, Debug, PartialEq, Eq)]
pub struct Levels {
    pub scl: bool,
    pub sda: bool,
}

// What a report of the lines is to UM10204: the two conditions, the clock's edges, or no event. A rise has the data level.
// `Still` is a case and no `Option`: a list of what the bus does holds it like the others, also for a call that is no report.
#[derive(Clone, Copy, Debug, PartialEq, Eq)]
pub enum Edge {
    Still,
    Start,
    Stop,
    Rise(bool),
    Fall,
}

// What the byte being received is.
#[derive(Clone, Copy, Debug, PartialEq, Eq)]
pub enum Receive {
    Address,
    Control,
    Data,
}

// What follows an acknowledge of the sensor's.
#[derive(Clone, Copy, Debug, PartialEq, Eq)]
pub enum Following {
    Control,
    Data,
    Read,
    Idle,
}

// What the master answered to a byte that it read, once the ninth clock has risen: three named cases, plainer than the Rust's
// `Option<bool>`.
#[derive(Clone, Copy, Debug, PartialEq, Eq)]
pub enum Answer {
    Unseen,
    Acknowledge,
    NotAcknowledge,
}

// Acknowledge: 0 the eighth rise has passed, 1 the pin is held low, 2 the ninth rise has passed (01 keeps the edge's
// number). Read: the bits taken.
#[derive(Clone, Copy, Debug, PartialEq, Eq)]
pub enum Phase {
    Idle,
    Receive(Receive),
    Acknowledge(Following, u8),
    Read(u8),
    MasterAcknowledge(Answer),
}

// The phase, the register pointer, how many bits of a byte being received there are and those bits, and whether the data line is held low.
#[derive(Clone, Copy, Debug, PartialEq, Eq)]
pub struct State {
    pub phase: Phase,
    pub pointer: u8,
    pub bits: u8,
    pub shift: u8,
    pub low: bool,
}

// What the sensor has to do: drop the byte being sent, write a register, fetch and send a register's byte, note that a register's byte is being read.
#[derive(Clone, Copy, Debug, PartialEq, Eq)]
pub enum Action {
    Drop,
    Write(u8, u8),
    Launch(u8),
    ReadBegan(u8),
}

// What a report leaves the engine in, and what the sensor has to do, if anything.
#[derive(Clone, Copy, Debug, PartialEq, Eq)]
pub struct Step {
    pub state: State,
    pub action: Option<Action>,
}
