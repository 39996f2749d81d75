// Next due, and samples up to a moment.
#![tactic(auto)]

ghost use Rattle.std.specs.Prelude.{◌≡◌, false};
ghost use Rattle.sensor.specs.Record.{automatic};
ghost use Rattle.sensor.specs.Mode.{automatic_control};
ghost use Rattle.samples.specs.Samples as S;

use control::lengths::needs;
use sampling::types::Acquisition;
use sensor::types::Sensor;
use time::Time;

// `end`, and whether an edge at it counts: two values here and below, since the calls of the specification have them so.
#[tactic(auto, unfolding(crate::specs::Samples::limit))]
fn limit(end: Time, inclusive: bool) -> Time
    ensures { result ≡ S.limit end inclusive }
{
    if inclusive { end.next_unit() } else { end }
}

#[tactic(auto, unfolding(crate::specs::Samples::samples_run, deadlines::specs::Deadlines::is_set))]
pub fn samples_run(sensor: Sensor) -> bool
    ensures { result ≡ S.samples_run sensor }
{
    !sensor.is_off() && !sensor.sampling.asleep && sensor.deadlines.wake.is_none()
}

#[tactic(auto, unfolding(crate::specs::Samples::next_sample))]
pub fn next_sample(sensor: Sensor) -> Option<Time>
    ensures { result ≡ S.next_sample sensor }
{
    samples_run(sensor).then(|| sensor.sampling.clock.next())
}

// Samples are due calls in automatic mode only.
#[tactic(auto, unfolding(crate::specs::Samples::sample_due))]
fn sample_due(sensor: Sensor) -> Option<Time>
    ensures { result ≡ S.sample_due sensor (automatic sensor) }
{
    if sensor.automatic() {
        next_sample(sensor)
    } else {
        None
    }
}

// Next due.
#[tactic(auto, unfolding(crate::specs::Samples::next_deadline, crate::specs::Samples::write_end))]
pub fn interaction_deadline(sensor: &Sensor) -> Option<Time>
    ensures { result ≡ S.interaction_deadline sensor.now }
{
    if sensor.is_off() {
        return None;
    }
    let write = sensor.writing.map(|w| w.cycle.deadline());
    sensor.deadlines.earliest(sample_due(*sensor), write)
}

// Advances the sample clock by n edges. The three parts that samples change come back by name: with `sensor.registers = after.registers`
// the check has no proof, since it does not cover an array that is handed from a field straight to another.
pub fn after_edges(sensor: &mut Sensor, n: u64)
    ensures { sensor.new ≡ S.after_edges sensor.old n }
{
    let Sensor {
        registers,
        sampling,
        interrupts,
        ..
    } = *sensor;
    let before = Acquisition {
        registers,
        sampling,
        interrupts,
    };
    let Acquisition {
        registers,
        sampling,
        interrupts,
    } = before.samples(n, sensor.kept.input, needs());
    sensor.registers = registers;
    sensor.sampling = sampling;
    sensor.interrupts = interrupts;
}

fn edges_until(sensor: Sensor, end: Time, inclusive: bool) -> u64
    ensures { result ≡ S.edges_until sensor end inclusive }
{
    sensor.sampling.clock.edges_before(limit(end, inclusive))
}

// A function of its own: on entry a function zeroes the space of every record that it holds by value, even of a branch that is not taken.
fn take_samples(sensor: &mut Sensor, end: Time, n: u64)
    ensures { sensor.new ≡ automatic_control (S.after_edges sensor.old n) end false false }
{
    after_edges(sensor, n);
    *sensor = sensor.automatic_control(end, false, false);
}

#[tactic(auto, unfolding(crate::specs::Samples::caught_up))]
fn catch_up(sensor: &mut Sensor, end: Time, n: u64)
    ensures { sensor.new ≡ S.caught_up sensor.old end n }
{
    if n != 0 {
        take_samples(sensor, end, n);
    }
}

#[tactic(auto, unfolding(crate::specs::Samples::samples_on_demand))]
fn samples_on_demand(sensor: Sensor) -> bool
    ensures { result ≡ S.samples_on_demand sensor }
{
    !sensor.automatic() && samples_run(sensor)
}

// Over a lent sensor, since most calls leave it as it is: by value it would be moved in and out for nothing.
#[tactic(auto, unfolding(crate::specs::Samples::sync_local_until))]
pub fn sync_local_until(sensor: &mut Sensor, end: Time, inclusive: bool)
    ensures { sensor.new ≡ S.sync_local_until sensor.old end inclusive }
{
    if samples_on_demand(*sensor) {
        let n = edges_until(*sensor, end, inclusive);
        catch_up(sensor, end, n);
    }
}
