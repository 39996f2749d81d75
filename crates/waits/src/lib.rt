// Supply, acceleration and temperature, and a due moment served (devices/bma150.rs).
#![tactic(auto)]

pub mod due;
pub mod supply;
pub mod types;
