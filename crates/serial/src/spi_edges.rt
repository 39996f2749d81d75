// SPI edges (`rising_at`, `falling_at`).
ghost use Rattle.std.specs.Prelude.{◌≡◌};
ghost use Rattle.sensor.specs.RegisterReads.{prepare_read};
ghost use Rattle.serial.specs.SpiEdges as Z;

use samples::sync_local_until;
use sensor::types::{Fetched, Sensor};
use spi::types::{Clocked, Shift, Taken};
use time::Time;
use writes::write::write_register;

fn show(sensor: &mut Sensor, a: u8)
    ensures { sensor.new ≡ Z.showing (prepare_read sensor.old a) }
{
    let Fetched {
        sensor: fetched,
        sent,
    } = sensor.prepare_read(a);
    *sensor = fetched;
    sensor.frame = sensor.frame.shifted(sent);
}

#[tactic(auto, unfolding(crate::specs::SpiEdges::moved))]
fn move_output(sensor: &mut Sensor, shift: Shift)
    ensures { sensor.new ≡ Z.moved shift sensor.old }
{
    match shift {
        Shift::Stay => {}
        Shift::Fetch(a) => show(sensor, a),
        Shift::Next => sensor.frame = sensor.frame.shifted(sensor.frame.tx),
    }
}

fn shift_output(sensor: &mut Sensor, at: Clocked)
    ensures { sensor.new ≡ Z.shift_output sensor.old at }
{
    let shift = sensor.frame.shifts(at, sensor.four_wire());
    move_output(sensor, shift);
}

#[tactic(auto, unfolding(crate::specs::SpiEdges::first_bit_taken))]
fn begin_read(sensor: &mut Sensor, a: Option<u8>)
    ensures { sensor.new ≡ Z.first_bit_taken a sensor.old }
{
    if let Some(r) = a {
        *sensor = sensor.read_began(r);
    }
}

#[tactic(auto, unfolding(crate::specs::SpiEdges::write_done))]
fn write(sensor: &mut Sensor, write: Option<(u8, u8)>, now: Time)
    ensures { sensor.new ≡ Z.write_done write sensor.old now }
{
    if let Some((a, v)) = write {
        *sensor = write_register(*sensor, a, v, now);
    }
}

fn end_bit(sensor: &mut Sensor, t: Taken, now: Time)
    ensures { sensor.new ≡ Z.bit_done t sensor.old now }
{
    sensor.frame = t.frame;
    write(sensor, t.write, now);
}

// The bit and its moment stay two: each goes on to one function from here, and a record of them would be made only to be taken apart.
fn take_bit(sensor: &mut Sensor, mosi: bool, now: Time)
    ensures { sensor.new ≡ Z.bit_taken sensor.old mosi now }
{
    let first = sensor.frame.first_bit();
    begin_read(sensor, first);
    let taken = sensor.frame.take_bit(mosi, sensor.four_wire());
    end_bit(sensor, taken, now);
    shift_output(sensor, Clocked::Rise);
}

fn turn(sensor: &mut Sensor)
    ensures { sensor.new ≡ Z.turned sensor.old }
{
    sensor.frame = sensor.frame.turned();
    shift_output(sensor, Clocked::Turnaround);
}

#[tactic(auto, unfolding(crate::specs::SpiEdges::spi_listens))]
pub fn spi_listens(sensor: Sensor) -> bool
    ensures { result ≡ Z.spi_listens sensor }
{
    sensor.frame.selected && !sensor.serial_not_ready() && !sensor.is_quiet()
}

#[tactic(auto, unfolding(crate::specs::SpiEdges::rising_effect))]
fn rise(sensor: &mut Sensor, mosi: bool, now: Time)
    ensures { sensor.new ≡ Z.rising_effect sensor.old mosi now }
{
    if !spi_listens(*sensor) {
        return;
    }
    if sensor.frame.turnaround {
        turn(sensor);
    } else {
        take_bit(sensor, mosi, now);
    }
}

#[tactic(auto, unfolding(crate::specs::SpiEdges::rise_synced))]
fn sync_rise(sensor: &mut Sensor, now: Time)
    ensures { sensor.new ≡ Z.rise_synced sensor.old now }
{
    if spi_listens(*sensor) && sensor.frame.consumes_at_rise() {
        sync_local_until(sensor, now, true);
    }
}

pub fn rising_at(sensor: &mut Sensor, mosi: bool, now: Time)
    ensures { sensor.new ≡ Z.rising_at sensor.old mosi now }
{
    sync_rise(sensor, now);
    rise(sensor, mosi, now);
}

#[tactic(auto, unfolding(crate::specs::SpiEdges::fall_synced))]
fn sync_fall(sensor: &mut Sensor, now: Time)
    ensures { sensor.new ≡ Z.fall_synced sensor.old now }
{
    if spi_listens(*sensor) && sensor.frame.consumes_at_fall(sensor.four_wire()) {
        sync_local_until(sensor, now, true);
    }
}

#[tactic(auto, unfolding(crate::specs::SpiEdges::falling_effect))]
fn fall(sensor: &mut Sensor)
    ensures { sensor.new ≡ Z.falling_effect sensor.old }
{
    if !sensor.serial_not_ready() && !sensor.is_off() {
        shift_output(sensor, Clocked::Fall);
    }
}

pub fn falling_at(sensor: &mut Sensor, now: Time)
    ensures { sensor.new ≡ Z.falling_at sensor.old now }
{
    sync_fall(sensor, now);
    fall(sensor);
}
