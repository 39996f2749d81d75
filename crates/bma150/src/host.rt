// The sensor that a host holds, and its calls: the refusal, then the effect, then the last accepted time.
// A refused call hands the sensor back as it came; a refused start hands out the stock image's at time 0.
ghost use Rattle.std.specs.Prelude.{◌≡◌, length};
ghost use Rattle.deadlines.specs.Deadlines.{moment};
ghost use Rattle.calls.specs.Table as Table;
ghost use Rattle.calls.specs.declared.types.Call.TheVariants as Call;
ghost use Rattle.calls.specs.declared.types.Timed.TheVariants as Timed;
ghost use Rattle.calls.specs.declared.types.Starting.TheVariants as Starting;
ghost use Rattle.sensor.specs.Record.{with_lines};
ghost use Rattle.serial.specs.I2cPins.{i2c_pins_at};
ghost use Rattle.waits.specs.Supply.{set_supply};
ghost use Rattle.bma150.specs.Values as Vals;
ghost use Rattle.bma150.specs.Called as C;

use crate::types::Replied;
use analog::types::Acceleration;
use calls::table::{is_accepted, refusal, start_refusal};
use calls::types::{Call, Refusal, Starting, Timed};
use i2c::types::Levels;
use samples::{interaction_deadline, sync_local_until};
use sensor::image::stock;
use sensor::types::{Sensor, Viewed};
use serial::i2c_pins::i2c_pins_at;
use serial::outputs::{data_output, output};
use serial::spi_edges::{falling_at, rising_at};
use spi::types::Drive;
use time::Time;
use waits::due::at_deadline;
use waits::supply::{set_input, set_supply, set_temperature};
use waits::types::Report;

// The record, and the last accepted time. Only the calls reach them.
#[derive(Clone, Copy)]
pub struct Bma150 {
    sensor: Sensor,
    last: Time,
}

// The byte of register 14 in lent bytes of an image.
fn measurement_of(bytes: &[u8]) -> u8
    ensures { result ≡ C.measurement_of bytes.now }
{
    bytes.get(9).copied().unwrap_or(0)
}

// An image in a lent buffer of 19 bytes. A function of its own, since its contract carries the lengths.
fn hand_out(buffer: &mut [u8], image: [u8; 19])
    requires { length buffer.old ≡ 19 }
    ensures { buffer.new ≡ image }
{
    buffer.copy_from_slice(&image);
}

// A case of `effect`, in a function of its own as `pins` is: on entry a function zeroes the space of every record that it holds by value,
// even of a branch that is not taken.
fn supply(sensor: &mut Sensor, rail: u16, now: Time) -> Option<Report>
    ensures sensor_value { sensor.new ≡ (set_supply sensor.old rail now).sensor }
    ensures report_value { result ≡ (set_supply sensor.old rail now).report }
{
    let served = set_supply(*sensor, rail, now);
    *sensor = served.sensor;
    served.report
}

// A pin report, and the levels that the next one begins with.
fn pins(sensor: &mut Sensor, before: Levels, after: Levels, now: Time)
    ensures { sensor.new ≡ with_lines (i2c_pins_at sensor.old before after now) after }
{
    i2c_pins_at(sensor, before, after, now);
    *sensor = sensor.with_lines(after);
}

// What a timed call does to the sensor at its moment; the answer is its report.
#[tactic(auto, unfolding(crate::specs::Called::effect))]
fn effect(sensor: &mut Sensor, now: Time, t: Timed) -> Option<Report>
    ensures sensor_value { sensor.new ≡ (C.effect sensor.old now t).sensor }
    ensures report_value { result ≡ (C.effect sensor.old now t).report }
{
    match t {
        Timed::Accelerations(input) => set_input(sensor, input, now),
        Timed::Supply(rail) => return supply(sensor, rail, now),
        Timed::Due => return at_deadline(sensor, now),
        Timed::Rising(mosi) => rising_at(sensor, mosi, now),
        Timed::Falling => falling_at(sensor, now),
        Timed::Pins(before, after) => pins(sensor, before, after, now),
    }
    None
}

// A start by either call. Its three parameters are what the two calls have: a struct would be made there to be taken apart here.
#[tactic(auto, unfolding(crate::specs::Called::after_start, calls::specs::Table::unless_refused), using(calls::proofs::Theorems::Left::start_length))]
fn started(by: Starting, when: Time, image: &[u8]) -> Replied<()>
    ensures outcome_value { Table.number result.answer ≡ C.start_number by when image.now }
    ensures sensor_value { result.sensor ≡ C.after_start by when image.now }
{
    let answer = start_refusal(by, when, image.len(), measurement_of(image));
    let (last, stored) = if is_accepted(answer) {
        (when, image.try_into().unwrap())
    } else {
        (Time(0, 0), stock())
    };
    Replied {
        sensor: Bma150 {
            sensor: Sensor::from_nonvolatile(last, stored),
            last,
        },
        answer,
    }
}

// Each call says in full what it promises, where it is read: most repeat the clauses of `timed` or `started` at their own arguments.
impl Bma150 {
    pub fn start(when: Time, image: &[u8]) -> Replied<()>
        ensures outcome_value { Table.number result.answer ≡ C.start_number Starting.Checked when image.now }
        ensures sensor_value { result.sensor ≡ C.after_start Starting.Checked when image.now }
    {
        started(Starting::Checked, when, image)
    }

    // A start with an image that was stored: range code 3 and bandwidth code 7 are taken.
    pub fn start_stored(when: Time, image: &[u8]) -> Replied<()>
        ensures outcome_value { Table.number result.answer ≡ C.start_number Starting.Stored when image.now }
        ensures sensor_value { result.sensor ≡ C.after_start Starting.Stored when image.now }
    {
        started(Starting::Stored, when, image)
    }

    // Whether a call is accepted, or why it is refused.
    fn asked(&self, call: Call) -> Result<(), Refusal>
        ensures { Table.number result ≡ C.number self.now call }
    {
        let due = interaction_deadline(&self.sensor);
        refusal(self.last, due, self.sensor.lines(), call)
    }

    // Any timed call, taken as a value. It stands beside the six that go through it: those are the calls by name, of which four answer no report.
    #[tactic(auto, unfolding(crate::specs::Values::report_values, crate::specs::Values::report_of, crate::specs::Called::reported, crate::specs::Called::leaves, crate::specs::Called::adds, calls::specs::Table::unless_refused, calls::specs::Table::number), using(calls::proofs::Theorems::Values::refused_number, crate::proofs::Laws::reports_added))]
    pub fn timed(mut self, now: Time, t: Timed) -> Replied<Option<Report>>
        ensures outcome_value { Table.number result.answer ≡ (C.called self (Call.At now t)).number }
        ensures sensor_value { result.sensor ≡ (C.called self (Call.At now t)).sensor }
        ensures report_value { Vals.report_values (Vals.report_of result.answer) ≡ C.reported (C.called self (Call.At now t)).adds }
    {
        if let Err(why) = self.asked(Call::At(now, t)) {
            return Replied {
                sensor: self,
                answer: Err(why),
            };
        }
        sync_local_until(&mut self.sensor, now, false);
        let report = effect(&mut self.sensor, now, t);
        self.last = now;
        Replied {
            sensor: self,
            answer: Ok(report),
        }
    }

    pub fn accelerations(self, now: Time, input: Acceleration) -> Replied<()>
        ensures outcome_value { Table.number result.answer ≡ (C.called self (Call.At now (Timed.Accelerations input))).number }
        ensures sensor_value { result.sensor ≡ (C.called self (Call.At now (Timed.Accelerations input))).sensor }
    {
        self.timed(now, Timed::Accelerations(input)).map(|_| ())
    }

    #[tactic(auto, unfolding(crate::specs::Called::leaves, calls::specs::Table::unless_refused), using(calls::proofs::Theorems::Left::temperature_accepted))]
    pub fn temperature(self, millicelsius: i32) -> Bma150
        ensures { result ≡ (C.called self (Call.Temperature millicelsius)).sensor }
    {
        Bma150 {
            sensor: set_temperature(self.sensor, millicelsius),
            ..self
        }
    }

    pub fn supply(self, now: Time, rail: u16) -> Replied<Option<Report>>
        ensures outcome_value { Table.number result.answer ≡ (C.called self (Call.At now (Timed.Supply rail))).number }
        ensures sensor_value { result.sensor ≡ (C.called self (Call.At now (Timed.Supply rail))).sensor }
        ensures report_value { Vals.report_values (Vals.report_of result.answer) ≡ C.reported (C.called self (Call.At now (Timed.Supply rail))).adds }
    {
        self.timed(now, Timed::Supply(rail))
    }

    pub fn due(self, now: Time) -> Replied<Option<Report>>
        ensures outcome_value { Table.number result.answer ≡ (C.called self (Call.At now Timed.Due)).number }
        ensures sensor_value { result.sensor ≡ (C.called self (Call.At now Timed.Due)).sensor }
        ensures report_value { Vals.report_values (Vals.report_of result.answer) ≡ C.reported (C.called self (Call.At now Timed.Due)).adds }
    {
        self.timed(now, Timed::Due)
    }

    #[tactic(auto, unfolding(crate::specs::Called::leaves, calls::specs::Table::unless_refused), using(calls::proofs::Theorems::Left::select_accepted))]
    pub fn select(self, selected: bool) -> Bma150
        ensures { result ≡ (C.called self (Call.Select selected)).sensor }
    {
        Bma150 {
            sensor: self.sensor.set_selected(selected),
            ..self
        }
    }

    pub fn rising(self, now: Time, mosi: bool) -> Replied<()>
        ensures outcome_value { Table.number result.answer ≡ (C.called self (Call.At now (Timed.Rising mosi))).number }
        ensures sensor_value { result.sensor ≡ (C.called self (Call.At now (Timed.Rising mosi))).sensor }
    {
        self.timed(now, Timed::Rising(mosi)).map(|_| ())
    }

    pub fn falling(self, now: Time) -> Replied<()>
        ensures outcome_value { Table.number result.answer ≡ (C.called self (Call.At now Timed.Falling)).number }
        ensures sensor_value { result.sensor ≡ (C.called self (Call.At now Timed.Falling)).sensor }
    {
        self.timed(now, Timed::Falling).map(|_| ())
    }

    pub fn pins(self, now: Time, before: Levels, after: Levels) -> Replied<()>
        ensures outcome_value { Table.number result.answer ≡ (C.called self (Call.At now (Timed.Pins before after))).number }
        ensures sensor_value { result.sensor ≡ (C.called self (Call.At now (Timed.Pins before after))).sensor }
    {
        self.timed(now, Timed::Pins(before, after)).map(|_| ())
    }

    // The byte that a register shows, if it is not withheld, and whether it is of a mean.
    #[tactic(auto, unfolding(crate::specs::Called::adds, calls::specs::Table::unless_refused), using(calls::proofs::Theorems::Left::view_accepted, crate::proofs::Laws::view_added))]
    pub fn view(self, address: u8) -> Option<Viewed>
        ensures { C.of_view result ≡ (C.called self (Call.View address)).adds }
    {
        self.sensor.viewed(address)
    }

    // The stored bytes at a moment, into a lent buffer; the last accepted time stays.
    #[tactic(auto, unfolding(crate::specs::Called::put_in, crate::specs::Called::adds, calls::specs::Table::unless_refused, calls::specs::Table::number), using(crate::proofs::Laws::buffer_sized, calls::proofs::Theorems::Values::refused_number))]
    pub fn stored_image(self, when: Time, buffer: &mut [u8]) -> Result<(), Refusal>
        ensures result_value { Table.number result ≡ (C.called self (Call.StoredImage when (length buffer.old))).number }
        ensures buffer_after { buffer.new ≡ C.put_in (C.called self (Call.StoredImage when (length buffer.old))).adds buffer.old }
    {
        self.asked(Call::StoredImage(when, buffer.len()))?;
        hand_out(buffer, self.sensor.nonvolatile(when));
        Ok(())
    }

    // The interrupt pin.
    pub fn interrupt(self) -> bool
        ensures { result ≡ C.interrupt self }
    {
        self.sensor.interrupt()
    }

    // The four-wire output.
    pub fn output(self) -> Drive
        ensures { Vals.drive_letter result ≡ Vals.drive_letter (C.output self) }
    {
        output(self.sensor)
    }

    // The data pin.
    pub fn data_output(self) -> Drive
        ensures { Vals.drive_letter result ≡ Vals.drive_letter (C.data_output self) }
    {
        data_output(self.sensor)
    }

    // Next due.
    pub fn next_due(self) -> Option<Time>
        ensures { moment result ≡ C.next_due self }
    {
        interaction_deadline(&self.sensor)
    }
}
