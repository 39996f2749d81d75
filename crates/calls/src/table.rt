// Which refusal a call gets: the first row found, in 01's order.
ghost use Rattle.std.specs.Prelude.{◌≡◌, eqb, if◌then◌else◌};
ghost use Rattle.calls.specs.Facts as F;
ghost use Rattle.calls.specs.Table as Table;

use crate::types::{Call, Facts, Kind, Refusal, Starting, Timed};
use analog::types::Acceleration;
use deadlines::{is_at, is_by};
use i2c::types::Levels;
use registers::fields::{bandwidth, range};
use time::Time;

fn untimed() -> Facts
    ensures { result ≡ F.untimed }
{
    Facts {
        kind: Kind::Untimed,
        time: None,
        bytes: None,
        axes: None,
        lines: None,
    }
}

// A timed call with nothing more to ask of it.
fn at(kind: Kind, now: Time) -> Facts
    ensures { result ≡ F.at kind now }
{
    Facts {
        kind,
        time: Some(now),
        ..untimed()
    }
}

#[tactic(auto, unfolding(crate::specs::Facts::timed_facts))]
fn timed_facts(now: Time, t: Timed) -> Facts
    ensures { result ≡ F.timed_facts now t }
{
    match t {
        Timed::Accelerations(input) => Facts {
            axes: Some(input),
            ..at(Kind::Timed, now)
        },
        Timed::Supply(_) | Timed::Rising(_) | Timed::Falling => at(Kind::Timed, now),
        Timed::Due => at(Kind::Due, now),
        Timed::Pins(before, _) => Facts {
            lines: Some(before),
            ..at(Kind::Timed, now)
        },
    }
}

#[tactic(auto, unfolding(crate::specs::Facts::facts))]
fn facts(c: Call) -> Facts
    ensures { result ≡ F.facts c }
{
    match c {
        Call::At(now, t) => timed_facts(now, t),
        Call::Temperature(_) | Call::Select(_) | Call::View(_) => untimed(),
        Call::StoredImage(now, n) => Facts {
            bytes: Some(n),
            ..at(Kind::Untimed, now)
        },
    }
}

// Refusal 1: a buffer for the stored image that is not 19 bytes long.
#[tactic(auto, unfolding(crate::specs::Table::wrong_length))]
fn wrong_length(bytes: Option<usize>) -> bool
    ensures { result ≡ Table.wrong_length bytes }
{
    bytes.is_some_and(|n| n != 19)
}

// Whole seconds of 2^32 or more.
#[tactic(auto, unfolding(crate::specs::Table::late))]
fn late(now: Time) -> bool
    ensures { result ≡ Table.late now }
{
    1 << 32 <= now.0
}

// Refusal 3: a time whose whole seconds are 2^32 or more.
#[tactic(auto, unfolding(crate::specs::Table::too_late))]
fn too_late(time: Option<Time>) -> bool
    ensures { result ≡ Table.too_late time }
{
    time.is_some_and(late)
}

// Refusal 4: a time before the last accepted one.
#[tactic(auto, unfolding(crate::specs::Table::goes_back))]
fn goes_back(last: Time, time: Option<Time>) -> bool
    ensures { result ≡ Table.goes_back last time }
{
    time.is_some_and(|now| now < last)
}

// An acceleration beyond 1000 g either way.
#[tactic(auto, unfolding(crate::specs::Table::beyond))]
fn beyond(axis: i32) -> bool
    ensures { result ≡ Table.beyond axis }
{
    !(-1000000000..=1000000000).contains(&axis)
}

// Refusal 2: an axis beyond the range.
#[tactic(auto, unfolding(crate::specs::Table::out_of_range, crate::specs::Table::any_beyond))]
fn out_of_range(axes: Option<Acceleration>) -> bool
    ensures { result ≡ Table.out_of_range axes }
{
    axes.is_some_and(|input| beyond(input.x) || beyond(input.y) || beyond(input.z))
}

// Refusal 8: a pin report whose levels before are not those after the last accepted report.
#[tactic(auto, unfolding(crate::specs::Table::jumps))]
fn jumps(lines: Levels, reported: Option<Levels>) -> bool
    ensures { result ≡ Table.jumps lines reported }
{
    reported.is_some_and(|before| lines != before)
}

// Refusal 5: a timed call, other than the due call, with something due at or before its time.
#[tactic(auto, unfolding(crate::specs::Table::before_due, crate::specs::Table::due_by))]
fn before_due(due: Option<Time>, kind: Kind, time: Option<Time>) -> bool
    ensures { result ≡ Table.before_due due kind time }
{
    kind == Kind::Timed && time.is_some_and(|now| is_by(due, now))
}

// Refusal 6: a due call at a time that is not the next due.
#[tactic(auto, unfolding(crate::specs::Table::beside_due, crate::specs::Table::due_at))]
fn beside_due(due: Option<Time>, kind: Kind, time: Option<Time>) -> bool
    ensures { result ≡ Table.beside_due due kind time }
{
    kind == Kind::Due && !time.is_some_and(|now| is_at(due, now))
}

// Refused with this refusal, where a test says so.
fn refused_if(test: bool, why: Refusal) -> Result<(), Refusal>
    ensures { result ≡ (if test then Err why else Ok tt) }
{
    if test { Err(why) } else { Ok(()) }
}

// The refusal of a call on a sensor with this last accepted time, next due and levels after the last accepted pin report.
#[tactic(auto, unfolding(crate::specs::Table::number, crate::specs::Table::refusal, crate::specs::Table::refusal_number, crate::specs::Table::first_found))]
pub fn refusal(last: Time, due: Option<Time>, lines: Levels, c: Call) -> Result<(), Refusal>
    ensures { Table.number result ≡ Table.refusal last due lines c }
{
    let f = facts(c);
    refused_if(wrong_length(f.bytes), Refusal::ImageLength)?;
    refused_if(too_late(f.time), Refusal::TimeLimit)?;
    refused_if(goes_back(last, f.time), Refusal::TimeBack)?;
    refused_if(out_of_range(f.axes), Refusal::AxisRange)?;
    refused_if(jumps(lines, f.lines), Refusal::PinJump)?;
    refused_if(before_due(due, f.kind, f.time), Refusal::DueFirst)?;
    refused_if(beside_due(due, f.kind, f.time), Refusal::NotDue)
}

// A byte of register 14 with a code that is reserved.
#[tactic(auto, unfolding(crate::specs::Table::reserved))]
fn reserved(measurement: u8) -> bool
    ensures { result ≡ Table.reserved measurement }
{
    range(measurement) == 3 || bandwidth(measurement) == 7
}

// Refusal 9: command 01's start with a reserved code in register 14.
#[tactic(auto, unfolding(crate::specs::Table::turned_down))]
fn turned_down(by: Starting, measurement: u8) -> bool
    ensures { result ≡ Table.turned_down by measurement }
{
    by == Starting::Checked && reserved(measurement)
}

// The refusal of a start with an image of this length and this byte of register 14.
#[tactic(auto, unfolding(crate::specs::Table::number, crate::specs::Table::start_refusal, crate::specs::Table::refusal_number, crate::specs::Table::first_found))]
pub fn start_refusal(by: Starting, now: Time, length: usize, measurement: u8) -> Result<(), Refusal>
    ensures { Table.number result ≡ Table.start_refusal by now length measurement }
{
    refused_if(wrong_length(Some(length)), Refusal::ImageLength)?;
    refused_if(turned_down(by, measurement), Refusal::ReservedCode)?;
    refused_if(late(now), Refusal::TimeLimit)
}

// Whether a call is accepted: its number is 0. It is `is_ok`; the contract says it of 01's number, as callers need it.
#[tactic(auto, unfolding(crate::specs::Table::number), using(crate::proofs::Theorems::Values::refused_number))]
pub fn is_accepted(outcome: Result<(), Refusal>) -> bool
    ensures { result ≡ eqb (Table.number outcome) 0 }
{
    outcome.is_ok()
}
