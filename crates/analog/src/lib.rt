// The stage before sampling (devices/bma150/analog.rs).
#![tactic(auto)]

mod axis;
mod decay;
pub mod types;
pub mod wide;
