// The SPI frame (devices/bma150.rs: `Serial`, `rising_effect`, `shift_output`, `falling`).
#![tactic(auto)]

pub mod frame;
pub mod types;
