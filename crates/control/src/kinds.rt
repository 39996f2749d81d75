// What a write of a register does.
ghost use Rattle.std.specs.Prelude.{◌≡◌};
ghost use Rattle.control.specs.Kinds as Kinds;

use crate::types::{Effect, SelfTest, Sleep, WriteKind};
use registers::access::{Gate, ignores, stored};
use registers::fields::{
    CONTROL, HG_DUR, LG_DUR, MEASUREMENT, OPERATION, RESET_INT, SELF_TEST_0, SLEEP, SOFT_RESET,
    UPDATE_IMAGE, WAKE_UP, has,
};

// A write of 0a that is taken.
#[tactic(auto, unfolding(crate::specs::Kinds::written_control))]
fn written_control(value: u8) -> Effect
    ensures { result ≡ Kinds.written_control value }
{
    if has(value, SOFT_RESET) {
        Effect::Reset
    } else {
        Effect::Control
    }
}

// A write of a register that is taken.
#[tactic(auto, unfolding(crate::specs::Kinds::written_register))]
fn written_register(address: u8, value: u8) -> Effect
    ensures { result ≡ Kinds.written_register address value }
{
    match usize::from(address) {
        CONTROL => written_control(value),
        MEASUREMENT => Effect::Measurement,
        OPERATION => Effect::Operation,
        LG_DUR | HG_DUR => Effect::Durations,
        _ => Effect::Plain,
    }
}

// What a write does; `running`: a stored write runs. Address, value and gate are the row of `ignores` and `begins` too: each caller
// has the three apart, and a record of them would be made only to be taken apart.
#[tactic(auto, unfolding(crate::specs::Kinds::kind_of_write))]
pub fn kind_of_write(address: u8, value: u8, gate: Gate, running: bool) -> WriteKind
    ensures { result ≡ Kinds.kind_of_write address value gate running }
{
    if ignores(address, value, gate) {
        return WriteKind::Ignored;
    }
    match (stored(address), running) {
        (true, true) => WriteKind::Ignored,
        (true, false) => WriteKind::Stored,
        (false, _) => WriteKind::Taken(written_register(address, value)),
    }
}

// What 0a keeps of a value.
#[tactic(auto, using(std::proofs::lemmas::Nat::and_assoc))]
pub fn kept(value: u8) -> u8
    ensures { result ≡ Kinds.kept value }
{
    value & 0x3d
}

// A write of 0a resets the interrupts.
pub fn resets_interrupts(value: u8) -> bool
    ensures { result ≡ Kinds.resets_interrupts value }
{
    has(value, RESET_INT)
}

// A write of 0a starts or stops the self test, or leaves it.
#[tactic(auto, unfolding(crate::specs::Kinds::self_test))]
pub fn self_test(old: u8, value: u8) -> Option<SelfTest>
    ensures { result ≡ Kinds.self_test old value }
{
    match (has(old, SELF_TEST_0), has(value, SELF_TEST_0)) {
        (false, true) => Some(SelfTest::Starts),
        (true, true) => None,
        (_, false) => Some(SelfTest::Stops),
    }
}

// A write of 0a wakes the sensor or puts it to sleep, or does neither.
#[tactic(auto, unfolding(crate::specs::Kinds::sleep))]
pub fn sleep(asleep: bool, value: u8) -> Option<Sleep>
    ensures { result ≡ Kinds.sleep asleep value }
{
    match (asleep, has(value, SLEEP)) {
        (true, false) => Some(Sleep::Wakes),
        (false, true) => Some(Sleep::Pauses),
        _ => None,
    }
}

// A write of 0a starts a copy of the stored image.
pub fn copies_image(value: u8) -> bool
    ensures { result ≡ Kinds.copies_image value }
{
    has(value, UPDATE_IMAGE)
}

// A write of 15 turns automatic mode on or off.
pub fn turns_automatic(old: u8, value: u8) -> bool
    ensures { result ≡ Kinds.turns_automatic old value }
{
    has(old, WAKE_UP) != has(value, WAKE_UP)
}
