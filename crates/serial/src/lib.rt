// The serial pins: what they show, SPI edges (devices/bma150.rs), I2C reports (bma150/i2c.rs).
#![tactic(auto)]

pub mod i2c_pins;
pub mod outputs;
pub mod spi_edges;
