// A command is served: a start, a call of the host, or refusal 7.
ghost use Rattle.std.specs.Prelude.{◌≡◌, length};
ghost use Rattle.commands.specs.Decode as D;
ghost use Rattle.commands.specs.declared.Command.TheVariants as Command;
ghost use Rattle.calls.specs.Table as R;
ghost use Rattle.calls.specs.declared.types.Call.TheVariants as Call;
ghost use Rattle.calls.specs.declared.types.Timed.TheVariants as Timed;
ghost use Rattle.bma150.specs.Called as K;
ghost use Rattle.bma150.specs.Values as Vals;
ghost use Rattle.bench.specs.Line as L;

use crate::types::{Answer, Extra};
use bma150::host::Bma150;
use bma150::lent::{due_lent, pins_lent};
use bma150::types::Replied;
use calls::table::is_accepted;
use calls::types::{Call, Refusal, Starting, Timed};
use commands::{Command, IMAGE};
use i2c::types::Levels;
use time::Time;
use waits::types::Report;

// What an accepted call adds; a refused one adds nothing.
#[tactic(auto, unfolding(calls::specs::Table::number, calls::specs::Table::unless_refused), using(crate::proofs::Laws::refused_adds))]
fn answer(outcome: Result<(), Refusal>, extra: Option<Extra>) -> Answer
    ensures number { R.number result ≡ R.number outcome }
    ensures adds { L.answer_adds result ≡ L.unless_refused (R.number outcome) (L.adds extra) }
{
    outcome.map(|()| extra)
}

// An answer that adds nothing, whatever sensor is left.
#[tactic(auto, using(crate::proofs::Laws::called_is, crate::proofs::Laws::nothing_unless))]
fn silent(outcome: Result<(), Refusal>) -> Answer
    ensures { (s : Bma150) → L.left s result ≡ L.silent s (R.number outcome) }
{
    answer(outcome, None)
}

// The start of either command. `by` and `when` come from the command, `image` from its input: a struct of the three would be made for this
// call alone. A `match`, since these two are the calls that a host has.
fn begun(by: Starting, when: Time, image: &[u8]) -> Replied<()>
    ensures outcome_value { R.number result.answer ≡ K.start_number by when image.now }
    ensures sensor_value { result.sensor ≡ K.after_start by when image.now }
{
    match by {
        Starting::Checked => Bma150::start(when, image),
        Starting::Stored => Bma150::start_stored(when, image),
    }
}

// A refused start leaves the running sensor.
fn start(running: &mut Bma150, by: Starting, when: Time, image: &[u8]) -> Answer
    ensures { L.left running.new result ≡ L.commanded running.old (Command.Start by when) image.now }
{
    let Replied { sensor, answer } = begun(by, when, image);
    if is_accepted(answer) {
        *running = sensor;
    }
    silent(answer)
}

// Supply and due calls report.
#[tactic(auto, unfolding(crate::specs::Line::extra_adds, bma150::specs::Called::timed_adds))]
fn timed_extra(t: Timed, report: Option<Report>) -> Option<Extra>
    ensures { L.adds result ≡ K.timed_adds t report }
{
    matches!(t, Timed::Supply(_) | Timed::Due).then_some(Extra::Reported(report))
}

// What a timed call adds, if it is accepted.
#[tactic(auto, unfolding(calls::specs::Table::number, calls::specs::Table::unless_refused, bma150::specs::Values::report_of), using(crate::proofs::Laws::refused_adds))]
fn timed_answer(t: Timed, answer: Result<Option<Report>, Refusal>) -> Answer
    ensures number { R.number result ≡ R.number answer }
    ensures adds { L.answer_adds result ≡ L.unless_refused (R.number answer) (K.timed_adds t (Vals.report_of answer)) }
{
    answer.map(|report| timed_extra(t, report))
}

#[tactic(auto, using(crate::proofs::Laws::called_is, bma150::proofs::Theorems::Added::reported_is))]
fn timed(sensor: &mut Bma150, when: Time, t: Timed) -> Answer
    ensures { L.left sensor.new result ≡ K.called sensor.old (Call.At when t) }
{
    let Replied {
        sensor: after,
        answer,
    } = sensor.timed(when, t);
    *sensor = after;
    timed_answer(t, answer)
}

// The due call, over the sensor as it is lent.
#[tactic(auto, using(crate::proofs::Laws::called_is, bma150::proofs::Theorems::Added::reported_is))]
fn due_by_lending(sensor: &mut Bma150, when: Time) -> Answer
    ensures { L.left sensor.new result ≡ K.called sensor.old (Call.At when Timed.Due) }
{
    let answer = due_lent(sensor, when);
    timed_answer(Timed::Due, answer)
}

// The pin call, over the sensor as it is lent.
fn pins_by_lending(sensor: &mut Bma150, when: Time, before: Levels, after: Levels) -> Answer
    ensures { L.left sensor.new result ≡ K.called sensor.old (Call.At when (Timed.Pins before after)) }
{
    silent(pins_lent(sensor, when, before, after))
}

// A timed call; where `lent` says so, the due call and the pin call go over the sensor as it is lent, any other by value. `lent` comes from
// `run` through `serve` and `host`: the trace lends every second one, so that both ways are compared, and the program without it calls by
// value. A flag and no closure, which would have to bring the contract of either way.
fn timed_either(sensor: &mut Bma150, when: Time, t: Timed, lent: bool) -> Answer
    ensures { L.left sensor.new result ≡ K.called sensor.old (Call.At when t) }
{
    match t {
        Timed::Due if lent => due_by_lending(sensor, when),
        Timed::Pins(before, after) if lent => pins_by_lending(sensor, when, before, after),
        _ => timed(sensor, when, t),
    }
}

fn temperature(sensor: &mut Bma150, millicelsius: i32) -> Answer
    ensures { L.left sensor.new result ≡ K.called sensor.old (Call.Temperature millicelsius) }
{
    *sensor = sensor.temperature(millicelsius);
    Ok(None)
}

#[tactic(auto, unfolding(calls::specs::Table::number), using(crate::proofs::Laws::select_called))]
fn select(sensor: &mut Bma150, selected: bool) -> Answer
    ensures { L.left sensor.new result ≡ K.called sensor.old (Call.Select selected) }
{
    *sensor = sensor.select(selected);
    Ok(None)
}

#[tactic(auto, unfolding(crate::specs::Line::extra_adds, calls::specs::Table::number), using(crate::proofs::Laws::called_is, calls::proofs::Theorems::Left::view_accepted, bma150::proofs::Theorems::Added::view_leaves))]
fn view(sensor: &Bma150, address: u8) -> Answer
    ensures { L.left sensor.now result ≡ K.called sensor.now (Call.View address) }
{
    Ok(Some(Extra::Viewed(sensor.view(address))))
}

// Into a buffer of 19 bytes; another length is refused as the call refuses it.
#[tactic(auto, unfolding(calls::specs::Table::number, calls::specs::Table::refusal_number, crate::specs::Line::extra_adds), using(crate::proofs::Laws::called_is, crate::proofs::Laws::wrong_buffer, bma150::proofs::Theorems::Added::image_leaves, bma150::proofs::Theorems::Added::buffer_is))]
fn stored_image(sensor: &Bma150, when: Time, length: usize) -> Answer
    ensures { L.left sensor.now result ≡ K.called sensor.now (Call.StoredImage when length) }
{
    if length != 19 {
        return Err(Refusal::ImageLength);
    }
    let mut image = [0; 19];
    let outcome = sensor.stored_image(when, &mut image);
    answer(outcome, Some(Extra::Image(image)))
}

fn host(sensor: &mut Bma150, c: Call, lent: bool) -> Answer
    ensures { L.left sensor.new result ≡ K.called sensor.old c }
{
    match c {
        Call::At(t, what) => timed_either(sensor, t, what, lent),
        Call::Temperature(x) => temperature(sensor, x),
        Call::Select(on) => select(sensor, on),
        Call::View(address) => view(sensor, address),
        Call::StoredImage(t, n) => stored_image(sensor, t, n),
    }
}

// The command at the head of the input; a bad one changes nothing. `lent`: a due or a pin call goes over the sensor as it is lent.
#[tactic(auto, unfolding(crate::specs::Line::commanded, calls::specs::Table::number, calls::specs::Table::refusal_number))]
pub(crate) fn serve(sensor: &mut Bma150, c: Command, input: &[u8], lent: bool) -> Answer
    requires { c ≡ D.decoded input.now }
    ensures { L.left sensor.new result ≡ L.commanded sensor.old c (D.image input.now) }
{
    match c {
        Command::Start(by, t) => start(sensor, by, t, &input[IMAGE]),
        Command::Host(call) => host(sensor, call, lent),
        Command::Bad => Err(Refusal::Command),
    }
}
