// Register writes (bma150/control.rs, `write_register`).
#![tactic(auto)]

pub mod write;
