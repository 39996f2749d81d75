// The BMA150 sensor as a host meets it: its calls, each refused or served, by value and lent.
#![tactic(auto)]

pub mod host;
pub mod lent;
pub mod types;
