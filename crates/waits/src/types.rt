// What a supply or a due call reports.
use sensor::types::Sensor;

// A stored write that ended: completed, or cut, with its address and byte.
#[derive(Clone, Copy, PartialEq, Eq)]
pub enum Report {
    Completed(u8, u8),
    Cut(u8, u8),
}

// The sensor that a supply call leaves, and its report.
#[derive(Clone, Copy)]
pub struct Served {
    pub sensor: Sensor,
    pub report: Option<Report>,
}
