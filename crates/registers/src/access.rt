// Which writes are ignored, which begin a stored write, and which reads are withheld. Addresses are the bytes that a bus sends, in the
// data sheet's numbers: the constants of `fields` are indexes.
ghost use Rattle.std.specs.Prelude.{◌≡◌};
ghost use Rattle.registers.specs.Access.{unwritable, working, stored, image_blocks, sleep_blocks, locked, ignores, begins, unreadable, withheld};

use crate::fields::{EE_W, has};

// What a read or a write meets: the byte of 0a, whether the sensor is quiet, an image copy runs, the sensor sleeps.
#[derive(Clone, Copy, Debug, PartialEq, Eq)]
pub struct Gate {
    pub control: u8,
    pub quiet: bool,
    pub copying: bool,
    pub asleep: bool,
}

// There is no register to write.
#[tactic(auto, unfolding(crate::specs::Access::unwritable))]
fn unwritable(address: u8) -> bool
    ensures { result ≡ unwritable address }
{
    !(0x0a..=0x3d).contains(&address)
}

// The working image, which a copy of the stored image overwrites.
#[tactic(auto, unfolding(crate::specs::Access::working))]
pub fn working(address: u8) -> bool
    ensures { result ≡ working address }
{
    (0x0b..=0x1d).contains(&address)
}

// The stored image.
#[tactic(auto, unfolding(crate::specs::Access::stored))]
pub fn stored(address: u8) -> bool
    ensures { result ≡ stored address }
{
    (0x2b..=0x3d).contains(&address)
}

// An image copy keeps the address from reads and writes.
#[tactic(auto, unfolding(crate::specs::Access::image_blocks))]
fn image_blocks(copying: bool, address: u8) -> bool
    ensures { result ≡ image_blocks copying address }
{
    copying && (working(address) || 0x2b <= address)
}

// A sleeping sensor does not take the write.
#[tactic(auto, unfolding(crate::specs::Access::sleep_blocks))]
fn sleep_blocks(asleep: bool, address: u8, value: u8) -> bool
    ensures { result ≡ sleep_blocks asleep address value }
{
    asleep && !(address == 0x0a && value % 4 != 1)
}

// The address needs ee_w, which is clear.
#[tactic(auto, unfolding(crate::specs::Access::locked))]
fn locked(address: u8, control: u8) -> bool
    ensures { result ≡ locked address control }
{
    0x16 <= address && !has(control, EE_W)
}

// A write is ignored.
#[tactic(auto, unfolding(crate::specs::Access::ignores))]
pub fn ignores(address: u8, value: u8, gate: Gate) -> bool
    ensures { result ≡ ignores address value gate }
{
    unwritable(address)
        || gate.quiet
        || image_blocks(gate.copying, address)
        || sleep_blocks(gate.asleep, address, value)
        || locked(address, gate.control)
}

// A write begins a stored write.
#[tactic(auto, unfolding(crate::specs::Access::begins))]
pub fn begins(address: u8, value: u8, gate: Gate, running: bool) -> bool
    ensures { result ≡ begins address value gate running }
{
    stored(address) && !running && !ignores(address, value, gate)
}

// A read is withheld.
#[tactic(auto, unfolding(crate::specs::Access::withheld, crate::specs::Access::unreadable))]
pub fn withheld(address: u8, gate: Gate) -> bool
    ensures { result ≡ withheld address gate }
{
    0x23 <= address
        || gate.asleep
        || gate.quiet
        || image_blocks(gate.copying, address)
        || locked(address, gate.control)
}
