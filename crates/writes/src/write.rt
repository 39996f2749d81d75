// Register writes (bma150/control.rs, `write_register`).
ghost use Rattle.std.specs.Prelude.{◌≡◌, true};
ghost use Rattle.writes.specs.Write as W;

use control::kinds::{
    copies_image, kept, kind_of_write, resets_interrupts, self_test, sleep, turns_automatic,
};
use control::types::{Effect, SelfTest, Sleep, WriteKind};
use nv::WriteCycle;
use registers::fields::{CONTROL, MEASUREMENT, OPERATION, ST_RESULT, STATUS, bandwidth};
use sensor::image::shadowing;
use sensor::types::{Sensor, StoredWrite};
use time::{Duration, Time};

#[tactic(auto, unfolding(crate::specs::Write::recounted))]
fn recounted(mut sensor: Sensor) -> Sensor
    ensures { result ≡ W.recounted sensor true }
{
    sensor.sampling.auto_cycles = 0;
    sensor.interrupts = sensor.interrupts.restart_acquisition();
    sensor
}

#[tactic(auto, unfolding(crate::specs::Write::recounted))]
fn interrupts_reset(mut sensor: Sensor) -> Sensor
    ensures { result ≡ W.interrupts_reset sensor }
{
    sensor.sampling.data_ready = false;
    sensor.deadlines.irq_hold = None;
    sensor.interrupts = sensor.interrupts.reset(sensor.registers);
    if sensor.automatic() {
        return recounted(sensor);
    }
    sensor
}

#[tactic(auto, unfolding(crate::specs::Write::interrupts_written))]
fn interrupts_written(sensor: Sensor, value: u8) -> Sensor
    ensures { result ≡ W.interrupts_written sensor value }
{
    if resets_interrupts(value) {
        return interrupts_reset(sensor);
    }
    sensor
}

#[tactic(auto, unfolding(crate::specs::Write::tested))]
fn tested(mut sensor: Sensor, t: Option<SelfTest>) -> Sensor
    ensures { result ≡ W.tested t sensor }
{
    match t {
        Some(SelfTest::Starts) => {
            sensor.registers[STATUS] &= !(1 << ST_RESULT);
            sensor.sampling.test = Some(4);
        }
        Some(SelfTest::Stops) => sensor.sampling.test = None,
        None => {}
    }
    sensor
}

#[tactic(auto, unfolding(crate::specs::Write::slept))]
fn slept(sensor: Sensor, z: Option<Sleep>, now: Time) -> Sensor
    ensures { result ≡ W.slept z sensor now }
{
    match z {
        Some(Sleep::Wakes) => sensor.start_acquisition(now, Duration::from_millis(1)),
        Some(Sleep::Pauses) => sensor.pause(now),
        None => sensor,
    }
}

#[tactic(auto, unfolding(crate::specs::Write::image_written))]
fn image_written(mut sensor: Sensor, value: u8, now: Time) -> Sensor
    ensures { result ≡ W.image_written sensor value now }
{
    if copies_image(value) {
        sensor.deadlines.image = Some(now.plus(Duration::from_micros(300)));
    }
    sensor
}

fn sleep_written(sensor: Sensor, value: u8, now: Time) -> Sensor
    ensures { result ≡ W.sleep_written sensor value now }
{
    let s = slept(sensor, sleep(sensor.sampling.asleep, value), now);
    image_written(s, value, now)
}

fn control_written(mut sensor: Sensor, value: u8, now: Time) -> Sensor
    ensures { result ≡ W.control_written sensor value now }
{
    let t = self_test(sensor.registers[CONTROL], value);
    sensor.registers[CONTROL] = kept(value);
    let s = tested(interrupts_written(sensor, value), t);
    sleep_written(s, value, now)
}

fn measurement_written(mut sensor: Sensor, value: u8) -> Sensor
    ensures { result ≡ W.measurement_written sensor value }
{
    sensor.registers[MEASUREMENT] = value;
    sensor.sampling.filter = sensor.sampling.filter.select(bandwidth(value));
    sensor
}

#[tactic(auto, unfolding(crate::specs::Write::mode_written, crate::specs::Write::recounted))]
fn mode_written(mut sensor: Sensor, turns: bool) -> Sensor
    ensures { result ≡ W.mode_written sensor turns }
{
    if turns {
        sensor.deadlines.irq_hold = None;
        return recounted(sensor);
    }
    sensor
}

fn operation_written(mut sensor: Sensor, value: u8) -> Sensor
    ensures { result ≡ W.operation_written sensor value }
{
    let turns = turns_automatic(sensor.registers[OPERATION], value);
    sensor.registers[OPERATION] = value;
    sensor.reads = shadowing(sensor.reads, value);
    mode_written(sensor, turns)
}

fn durations_written(sensor: Sensor, address: u8, value: u8) -> Sensor
    ensures { result ≡ W.durations_written sensor address value }
{
    let mut s = sensor.put(address, value);
    s.interrupts = s.interrupts.configure(s.registers);
    s
}

// What a write of a register does before automatic mode. Address and value stay two: the effect is worked out of both, and four of the
// six use the value alone or neither.
#[tactic(auto, unfolding(crate::specs::Write::register_effect))]
fn register_effect(sensor: Sensor, e: Effect, address: u8, value: u8, now: Time) -> Sensor
    ensures { result ≡ W.register_effect e sensor address value now }
{
    match e {
        Effect::Reset => sensor.soft_reset(now),
        Effect::Control => control_written(sensor, value, now),
        Effect::Measurement => measurement_written(sensor, value),
        Effect::Operation => operation_written(sensor, value),
        Effect::Durations => durations_written(sensor, address, value),
        Effect::Plain => sensor.put(address, value),
    }
}

// A stored write begins; any other that is taken is followed by automatic mode.
#[tactic(auto, unfolding(crate::specs::Write::write_effect))]
pub fn write_register(sensor: Sensor, address: u8, value: u8, now: Time) -> Sensor
    ensures { result ≡ W.write_register sensor address value now }
{
    match kind_of_write(address, value, sensor.gate(), sensor.is_writing()) {
        WriteKind::Ignored => sensor,
        WriteKind::Stored => Sensor {
            writing: Some(StoredWrite {
                cycle: WriteCycle::start(now),
                address,
                value,
            }),
            ..sensor
        },
        WriteKind::Taken(e) => {
            let s = register_effect(sensor, e, address, value, now);
            s.automatic_control(now, sensor.criterion(), false)
        }
    }
}
