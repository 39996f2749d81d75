// The I2C engine (bma150/i2c.rs): what each report of the two lines asks of the sensor.
#![tactic(auto)]

pub mod edges;
pub mod engine;
pub mod types;
