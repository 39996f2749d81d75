// A call of a host and its arguments, and what it answers first: accepted, or refused and why.
use analog::types::Acceleration;
use i2c::types::Levels;
use time::Time;

// What a timed call does at its moment.
#[derive(Clone, Copy, PartialEq, Eq)]
pub enum Timed {
    Accelerations(Acceleration),
    Supply(u16),
    Due,
    Rising(bool),
    Falling,
    Pins(Levels, Levels),
}

// Of a stored-image call's buffer only the length counts.
#[derive(Clone, Copy, PartialEq, Eq)]
pub enum Call {
    At(Time, Timed),
    Temperature(i32),
    Select(bool),
    View(u8),
    StoredImage(Time, usize),
}

// By which call a sensor is started: command 01's, or command 0c's, which takes any image.
#[derive(Clone, Copy, PartialEq, Eq)]
pub enum Starting {
    Checked,
    Stored,
}

// Why a call is refused (01's table).
#[derive(Clone, Copy, PartialEq, Eq)]
pub enum Refusal {
    ImageLength,
    AxisRange,
    TimeLimit,
    TimeBack,
    DueFirst,
    NotDue,
    Command,
    PinJump,
    ReservedCode,
}

// Whether a call is the due call, another timed call, or none of 01's timed calls.
#[derive(Clone, Copy, PartialEq, Eq)]
pub enum Kind {
    Timed,
    Due,
    Untimed,
}

// What the table asks of a call: its kind, the time that it gives, the length of the bytes that it brings, the accelerations that it
// sets, and the levels of the I2C lines before a pin report.
#[derive(Clone, Copy, PartialEq, Eq)]
pub struct Facts {
    pub kind: Kind,
    pub time: Option<Time>,
    pub bytes: Option<usize>,
    pub axes: Option<Acceleration>,
    pub lines: Option<Levels>,
}
