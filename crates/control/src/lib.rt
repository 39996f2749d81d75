// The decisions of writes and of automatic control, on plain values (bma150/control.rs).
#![tactic(auto)]

pub mod automatic;
pub mod kinds;
pub mod lengths;
pub mod types;
