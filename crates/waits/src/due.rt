// A due moment is served.
ghost use Rattle.std.specs.Prelude.{◌≡◌};
ghost use Rattle.time.specs.Time.{from_millis};
ghost use Rattle.sensor.specs.Mode.{start_acquisition};
ghost use Rattle.samples.specs.Samples.{after_edges};
ghost use Rattle.waits.specs.Due as D;

use crate::supply::write_over;
use crate::types::Report;
use deadlines::{is_at, unless_at};
use registers::fields::{CONTROL, UPDATE_IMAGE};
use samples::{after_edges, next_sample};
use sensor::types::{Sensor, StoredWrite};
use time::{Clock, Duration, Time};

// Automatic mode verifies at the end of a scan or of a hold.
#[tactic(auto, unfolding(crate::specs::Due::verifies))]
fn verifies(sample: bool, scan: bool, hold_ended: bool) -> bool
    ensures { result ≡ D.verifies sample scan hold_ended }
{
    sample && scan || hold_ended
}

fn end_waits(sensor: &mut Sensor, now: Time)
    ensures { sensor.new ≡ D.waits_ended sensor.old now }
{
    sensor.deadlines.serial_ready = unless_at(sensor.deadlines.serial_ready, now);
    sensor.deadlines.irq_hold = unless_at(sensor.deadlines.irq_hold, now);
    sensor.deadlines.quiet = unless_at(sensor.deadlines.quiet, now);
}

// A function of its own, as `complete` and `load_image` are: on entry a function zeroes the space of every record that it holds by value,
// even of a branch that is not taken.
fn acquire(sensor: &mut Sensor, now: Time)
    ensures { sensor.new ≡ start_acquisition sensor.old now (from_millis 1) }
{
    *sensor = sensor.start_acquisition(now, Duration::from_millis(1));
}

#[tactic(auto, unfolding(crate::specs::Due::pause_ended))]
fn end_pause(sensor: &mut Sensor, now: Time)
    ensures { sensor.new ≡ D.pause_ended sensor.old now }
{
    if is_at(sensor.deadlines.pause, now) {
        acquire(sensor, now);
    }
}

fn complete(sensor: &mut Sensor, w: StoredWrite) -> Option<Report>
    ensures sensor_value { sensor.new ≡ (D.completed sensor.old w.address w.value).sensor }
    ensures report_value { result ≡ (D.completed sensor.old w.address w.value).report }
{
    *sensor = write_over(*sensor, w.address, w.value).copy_image();
    Some(Report::Completed(w.address, w.value))
}

#[tactic(auto, unfolding(crate::specs::Due::write_ended))]
fn end_write(sensor: &mut Sensor, now: Time) -> Option<Report>
    ensures sensor_value { sensor.new ≡ (D.write_ended sensor.old.writing sensor.old now).sensor }
    ensures report_value { result ≡ (D.write_ended sensor.old.writing sensor.old now).report }
{
    match sensor.writing {
        Some(w) if w.cycle.deadline() == now => complete(sensor, w),
        _ => None,
    }
}

fn load_image(sensor: &mut Sensor)
    ensures { sensor.new ≡ D.image_loaded sensor.old }
{
    *sensor = sensor.copy_image();
    sensor.deadlines.image = None;
    sensor.registers[CONTROL] &= !(1 << UPDATE_IMAGE);
}

#[tactic(auto, unfolding(crate::specs::Due::image_ended))]
fn end_image(sensor: &mut Sensor, now: Time)
    ensures { sensor.new ≡ D.image_ended sensor.old now }
{
    if is_at(sensor.deadlines.image, now) {
        load_image(sensor);
    }
}

#[tactic(auto, unfolding(crate::specs::Due::wake_ended))]
fn end_wake(sensor: &mut Sensor, now: Time)
    ensures { sensor.new ≡ D.wake_ended sensor.old now }
{
    if is_at(sensor.deadlines.wake, now) {
        sensor.deadlines.wake = None;
        sensor.sampling.clock = Clock::new(now);
    }
}

// Whether a sample is at this moment.
fn sample_due_now(sensor: Sensor, now: Time) -> bool
    ensures { result ≡ D.sample_due_now sensor now }
{
    is_at(next_sample(sensor), now)
}

#[tactic(auto, unfolding(crate::specs::Due::sample_ended))]
fn end_sample(sensor: &mut Sensor, now: Time)
    ensures { sensor.new ≡ D.sample_ended sensor.old now }
{
    if sample_due_now(*sensor, now) {
        after_edges(sensor, 1);
    }
}

// Whether the clock's last edge was the last of a scan.
fn scan_complete(sensor: Sensor) -> bool
    ensures { result ≡ D.scan_complete sensor }
{
    sensor.sampling.clock.ordinal % 4 == 0
}

fn serve_waits(sensor: &mut Sensor, now: Time) -> Option<Report>
    ensures sensor_value { sensor.new ≡ (D.waits_served sensor.old now).sensor }
    ensures report_value { result ≡ (D.waits_served sensor.old now).report }
{
    end_waits(sensor, now);
    end_pause(sensor, now);
    let report = end_write(sensor, now);
    end_image(sensor, now);
    end_wake(sensor, now);
    report
}

fn hold_ends_now(sensor: Sensor, now: Time) -> bool
    ensures { result ≡ D.hold_ends_now sensor now }
{
    is_at(sensor.deadlines.irq_hold, now)
}

// The sample at this moment, and automatic mode after it.
fn serve_sample(sensor: &mut Sensor, now: Time, was_criterion: bool, hold_ended: bool)
    ensures { sensor.new ≡ D.sample_served sensor.old now was_criterion hold_ended }
{
    let due = sample_due_now(*sensor, now);
    end_sample(sensor, now);
    let verify = verifies(due, scan_complete(*sensor), hold_ended);
    *sensor = sensor.automatic_control(now, was_criterion, verify);
}

pub fn at_deadline(sensor: &mut Sensor, now: Time) -> Option<Report>
    ensures sensor_value { sensor.new ≡ (D.at_deadline sensor.old now).sensor }
    ensures report_value { result ≡ (D.at_deadline sensor.old now).report }
{
    let was = sensor.criterion();
    let hold = hold_ends_now(*sensor, now);
    let report = serve_waits(sensor, now);
    serve_sample(sensor, now, was, hold);
    report
}
