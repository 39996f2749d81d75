// Sample phases (devices/bma150.rs: `sample_phase` and the loop of `sync_local_until`).
#![tactic(auto)]

pub mod phase;
mod stage;
pub mod types;
