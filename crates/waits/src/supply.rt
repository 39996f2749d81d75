// Supply, acceleration and temperature.
ghost use Rattle.std.specs.Prelude.{◌≡◌};
ghost use Rattle.waits.specs.Supply as Sup;

use crate::types::{Report, Served};
use analog::types::Acceleration;
use sampling::types::Sampling;
use sensor::image::with_cell;
use sensor::types::{Outage, Sensor};
use time::{Duration, Time};

// A function and no `From`: at each call its name says what the answer lacks.
pub fn without_report(sensor: Sensor) -> Served
    ensures { result ≡ Sup.without_report sensor }
{
    Served {
        sensor,
        report: None,
    }
}

// A stored write is over: its cell holds this byte, which may be torn, so address and byte come as two and no `StoredWrite`.
pub fn write_over(sensor: Sensor, address: u8, value: u8) -> Sensor
    ensures { result ≡ Sup.write_over sensor address value }
{
    let stored = with_cell(sensor.nonvolatile, address, value);
    Sensor {
        nonvolatile: stored,
        writing: None,
        ..sensor
    }
}

#[tactic(auto, unfolding(crate::specs::Supply::cut))]
fn cut(sensor: Sensor, now: Time) -> Served
    ensures { result ≡ Sup.cut sensor.writing sensor now }
{
    let Some(w) = sensor.writing else {
        return without_report(sensor);
    };
    let torn = w.byte_at(sensor.nonvolatile, now);
    Served {
        sensor: write_over(sensor, w.address, torn),
        report: Some(Report::Cut(w.address, torn)),
    }
}

fn off(sensor: Sensor, now: Time, cold: bool) -> Sensor
    ensures { result ≡ Sup.off sensor now cold }
{
    let mut s = sensor.set_selected(false);
    s.i2c = s.i2c.abort();
    s.outage = Some(Outage { since: now, cold });
    s
}

fn hold_analog(mut sensor: Sensor, now: Time) -> Sensor
    ensures { result ≡ Sup.hold_analog sensor now }
{
    sensor.sampling = sensor.sampling.hold(now, sensor.kept.input);
    sensor
}

fn power_off(sensor: Sensor, now: Time, cold: bool) -> Served
    ensures { result ≡ Sup.power_off sensor now cold }
{
    let c = cut(hold_analog(sensor, now), now);
    Served {
        sensor: off(c.sensor, now, cold),
        ..c
    }
}

#[tactic(auto, unfolding(crate::specs::Supply::zero_while_off))]
fn zero_while_off(mut sensor: Sensor, outage: Outage, zero_volt: bool) -> Sensor
    ensures { result ≡ Sup.zero_while_off sensor outage zero_volt }
{
    if zero_volt {
        sensor.outage = Some(Outage {
            cold: true,
            ..outage
        });
    }
    sensor
}

#[tactic(auto, unfolding(crate::specs::Supply::reacquired))]
fn reacquired(sensor: Sensor, now: Time) -> Sensor
    ensures { result ≡ Sup.reacquired sensor now }
{
    if sensor.sampling.asleep {
        return sensor;
    }
    sensor.start_acquisition(now, Duration::from_millis(1))
}

fn warm_return(mut sensor: Sensor, since: Time, now: Time) -> Sensor
    ensures { result ≡ Sup.warm_return sensor since now }
{
    sensor.deadlines = sensor.deadlines.shifted(now.since(since));
    sensor.outage = None;
    reacquired(sensor, now)
}

#[tactic(auto, unfolding(crate::specs::Supply::returned))]
fn returned(sensor: Sensor, outage: Outage, now: Time) -> Sensor
    ensures { result ≡ Sup.returned sensor outage now }
{
    if outage.cold {
        return sensor.power_on(now);
    }
    warm_return(sensor, outage.since, now)
}

#[tactic(auto, unfolding(crate::specs::Supply::supply_low))]
fn supply_low(sensor: Sensor, zero_volt: bool, now: Time) -> Served
    ensures { result ≡ Sup.supply_low sensor.outage sensor zero_volt now }
{
    match sensor.outage {
        Some(outage) => without_report(zero_while_off(sensor, outage, zero_volt)),
        None => power_off(sensor, now, zero_volt),
    }
}

#[tactic(auto, unfolding(crate::specs::Supply::supply_ok))]
fn supply_ok(sensor: Sensor, now: Time) -> Sensor
    ensures { result ≡ Sup.supply_ok sensor.outage sensor now }
{
    match sensor.outage {
        Some(outage) => returned(sensor, outage, now),
        None => sensor,
    }
}

#[tactic(auto, unfolding(crate::specs::Supply::set_supply))]
pub fn set_supply(sensor: Sensor, rail: u16, now: Time) -> Served
    ensures { result ≡ Sup.set_supply sensor rail now }
{
    if rail < 2400 {
        return supply_low(sensor, rail == 0, now);
    }
    without_report(supply_ok(sensor, now))
}

#[tactic(auto, unfolding(crate::specs::Supply::turned))]
fn turned(sensor: Sensor, input: Acceleration, now: Time) -> Sampling
    ensures { result ≡ Sup.turned sensor input now }
{
    if sensor.is_off() {
        return sensor.sampling;
    }
    sensor
        .sampling
        .turn(now, sensor.kept.input.acceleration, input)
}

pub fn set_input(sensor: &mut Sensor, input: Acceleration, now: Time)
    ensures { sensor.new ≡ Sup.set_input sensor.old input now }
{
    sensor.sampling = turned(*sensor, input, now);
    sensor.kept.input.acceleration = input;
}

pub fn set_temperature(mut sensor: Sensor, millicelsius: i32) -> Sensor
    ensures { result ≡ Sup.set_temperature sensor millicelsius }
{
    sensor.kept.input.temperature_millicelsius = millicelsius;
    sensor
}
