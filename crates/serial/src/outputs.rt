// What the four-wire output and the data pin show.
ghost use Rattle.std.specs.Prelude.{◌≡◌};
ghost use Rattle.serial.specs.Outputs as Out;

use crate::i2c_pins::i2c_listens;
use crate::spi_edges::spi_listens;
use sensor::types::Sensor;
use spi::types::Drive;

#[tactic(auto, unfolding(crate::specs::Outputs::spi_drives, crate::specs::SpiEdges::spi_listens))]
pub fn spi_drives(sensor: Sensor) -> bool
    ensures { result ≡ Out.spi_drives sensor }
{
    spi_listens(sensor) && !sensor.sampling.asleep
}

// The four-wire output.
#[tactic(auto, unfolding(crate::specs::Outputs::output))]
pub fn output(sensor: Sensor) -> Drive
    ensures { result ≡ Out.output sensor }
{
    if sensor.four_wire() && spi_drives(sensor) {
        return sensor.frame.driven;
    }
    Drive::Floating
}

#[tactic(auto, unfolding(crate::specs::Outputs::i2c_holds, crate::specs::I2cPins::i2c_listens))]
pub fn i2c_holds(sensor: Sensor) -> bool
    ensures { result ≡ Out.i2c_holds sensor }
{
    i2c_listens(sensor) && sensor.i2c.low
}

// The data pin.
#[tactic(auto, unfolding(crate::specs::Outputs::data_output))]
pub fn data_output(sensor: Sensor) -> Drive
    ensures { result ≡ Out.data_output sensor }
{
    if i2c_holds(sensor) {
        return Drive::Low;
    }
    if !sensor.four_wire() && spi_drives(sensor) {
        return sensor.frame.driven;
    }
    Drive::Floating
}
