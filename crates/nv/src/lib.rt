// The byte of a cell during and after a stored write (devices/nv.rs).
#![tactic(auto)]

ghost use Rattle.std.specs.Prelude.{◌≡◌, ◌<◌};
ghost use Rattle.laws.specs.Bytes as Bytes;
ghost use Rattle.nv.specs.Cell as C;
ghost use Rattle.nv.specs.Cycle as W;

use time::{Duration, Time};

// The length of a write, 28 ms, in units of 2^-64 s.
const WRITE: u64 = ((28u128 << 64) / 1000) as u64;

// Its first part, in which the cell is erased.
const ERASE: u64 = WRITE / 2;

// Its second part, in which the cell is programmed.
const PROGRAM: u64 = WRITE - ERASE;

// A stored write that runs. It ends `WRITE` units after its start.
#[derive(Clone, Copy, Debug, PartialEq, Eq)]
pub struct WriteCycle {
    pub started: Time,
}

// One round of the mixer.
#[tactic(auto, unfolding(crate::specs::Cell::mixed))]
fn mixed(shift: u32, factor: u32, key: u32) -> u32
    requires { shift < 32 }
    ensures { result ≡ C.mixed shift factor key }
{
    (key ^ (key >> shift)).wrapping_mul(factor)
}

// The threshold of a bit of a cell, from 1 to 65535.
#[tactic(auto, unfolding(crate::specs::Cell::low_half, crate::specs::Cell::threshold))]
fn threshold(cell: u32, bit: u8) -> u16
    ensures { result ≡ C.threshold cell bit }
{
    let key = cell ^ 0x9e37_79b9u32.wrapping_mul(u32::from(bit) + 1);
    let key = mixed(15, 0x846c_a68b, mixed(16, 0x7feb_352d, key));
    ((key ^ (key >> 16)) & 0xffff).max(1) as u16
}

// Whether a bit of a cell has crossed.
#[tactic(auto, using(crate::proofs::Masks::crossing_is))]
fn crossed_bit(cell: u32, elapsed: u64, duration: u64, bit: u8) -> bool
    ensures { result ≡ C.has_crossed cell elapsed duration bit }
{
    let at = (u128::from(duration) * u128::from(threshold(cell, bit))) >> 16;
    at <= u128::from(elapsed)
}

// The bits that have crossed.
#[tactic(auto, using(crate::proofs::Masks::turn), unfolding(crate::specs::Cell::bits_where))]
fn crossed(cell: u32, elapsed: u64, duration: u64) -> u8
    ensures { result ≡ C.crossed cell elapsed duration }
{
    let mut mask = 0;
    for bit in 0..8 {
        mask |= u8::from(crossed_bit(cell, elapsed, duration, bit)) << bit;
    }
    mask
}

// The byte of a cell less than a second after its write began.
#[tactic(auto, unfolding(crate::specs::Cell::byte))]
fn byte_after(old: u8, target: u8, cell: u32, elapsed: u64) -> u8
    ensures { result ≡ C.byte old target cell elapsed }
{
    if elapsed == 0 {
        return old;
    }
    if elapsed < ERASE {
        return old & !crossed(cell, elapsed, ERASE);
    }
    target & crossed(cell ^ 0x8a51_3c27, elapsed - ERASE, PROGRAM)
}

impl WriteCycle {
    // A write that begins now.
    pub fn start(now: Time) -> WriteCycle
        ensures { result ≡ W.start now }
    {
        WriteCycle { started: now }
    }

    // When the write ends.
    pub fn deadline(self) -> Time
        ensures { result ≡ W.deadline self }
    {
        self.started.plus(Duration(0, WRITE))
    }

    // The byte of the cell now: `old` before the write, `target` once it has ended.
    #[tactic(auto, using(crate::specs::Theorems::Laws::end_is_wanted))]
    pub fn byte(self, old: u8, target: u8, cell: u32, now: Time) -> u8
        ensures { result ≡ W.byte_at self old target cell now }
    {
        match now.since(self.started) {
            Duration(0, elapsed) => byte_after(old, target, cell, elapsed),
            _ => target,
        }
    }
}
