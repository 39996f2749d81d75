// The bench program's commands: a byte and its operands, big-endian.
#![tactic(auto)]

ghost use Rattle.std.specs.Prelude.{◌≡◌, ◌+◌, ◌^◌, ◌≤◌, ◌<◌, ◌⊎◌, length, MatchOption};
ghost use Rattle.commands.specs.Decode as D;
ghost use Rattle.commands.specs.declared.Opcode.TheVariants as Opcode;

use analog::types::Acceleration;
use calls::types::{Call, Starting, Timed};
use i2c::types::Levels;
use registers::fields::has;
use std::ops::Range;
use time::Time;

// Where a start has its image: its last 19 bytes.
pub const IMAGE: Range<usize> = 13..32;

// A start, whose image stays in the input; a call of the host; or no command of the list. `Bad` and no `Option`: it
// is a command of every list in the definitions, with a size (its one byte) and an answer (refusal 7) like the others.
#[derive(Clone, Copy)]
pub enum Command {
    Start(Starting, Time),
    Host(Call),
    Bad,
}

// The command that a first byte names.
#[derive(Clone, Copy, PartialEq, Eq, Debug)]
pub enum Opcode {
    Start,
    Accelerations,
    Temperature,
    Supply,
    Due,
    Select,
    Rising,
    Falling,
    Pins,
    StoredImage,
    View,
    StartStored,
}

// A byte that begins no command.
#[derive(Clone, Copy, PartialEq, Eq, Debug)]
pub struct UnknownByte;

impl TryFrom<u8> for Opcode {
    ghost use Rattle.std.specs.Prelude.{◌≡◌};
    ghost use Rattle.commands.specs.Decode.{opcode};

    type Error = UnknownByte;

    ghost try_from_gives = { λ byte r. r ≡ opcode byte };

    #[tactic(auto, unfolding(crate::specs::Decode::opcode))]
    fn try_from(byte: u8) -> Result<Opcode, UnknownByte> {
        match byte {
            0x01 => Ok(Opcode::Start),
            0x02 => Ok(Opcode::Accelerations),
            0x03 => Ok(Opcode::Temperature),
            0x04 => Ok(Opcode::Supply),
            0x05 => Ok(Opcode::Due),
            0x06 => Ok(Opcode::Select),
            0x07 => Ok(Opcode::Rising),
            0x08 => Ok(Opcode::Falling),
            0x09 => Ok(Opcode::Pins),
            0x0a => Ok(Opcode::StoredImage),
            0x0b => Ok(Opcode::View),
            0x0c => Ok(Opcode::StartStored),
            _ => Err(UnknownByte),
        }
    }
}

impl Opcode {
    // How many bytes the command has.
    fn size(self) -> usize
        ensures { result ≡ D.opcode_size self }
    {
        match self {
            Opcode::Start | Opcode::StartStored => 32,
            Opcode::Accelerations => 25,
            Opcode::Temperature => 5,
            Opcode::Supply => 15,
            Opcode::Due | Opcode::Falling | Opcode::StoredImage => 13,
            Opcode::Select | Opcode::View => 2,
            Opcode::Rising | Opcode::Pins => 14,
        }
    }
}

// The N bytes from `at`, which is where the list of commands has an operand: slices cut to size would not show the list's number.
fn part<const N: usize>(command: &[u8], at: usize) -> Option<[u8; N]>
    ensures { D.Reads result command.now (at + N) (D.part at N command.now) }
{
    command.get(at..)?.first_chunk().copied()
}

// A signed number of 4 bytes.
#[tactic(auto, using(crate::proofs::Bytes::signed_4))]
fn signed(command: &[u8], at: usize) -> Option<i32>
    ensures { D.Reads result command.now (at + 4) (D.signed_at at command.now) }
{
    part(command, at).map(i32::from_be_bytes)
}

// T: 4 bytes of seconds and 8 of fraction.
#[tactic(auto, unfolding(crate::specs::Decode::moment_at), using(crate::proofs::Bytes::number_4, crate::proofs::Bytes::number_8))]
fn moment(command: &[u8], at: usize) -> Option<Time>
    ensures { D.Reads result command.now (at + 12) (D.moment_at at command.now) }
{
    let seconds = u32::from_be_bytes(part(command, at)?);
    let fraction = u64::from_be_bytes(part(command, at + 4)?);
    Some(Time(seconds.into(), fraction))
}

// 0 or 1; no other value is an operand.
fn flag(command: &[u8], at: usize) -> Option<bool>
    ensures { MatchOption result ((length command.now ≤ at) ⊎ (1 < D.byte_at at command.now)) (λ on. (at < length command.now) × (D.byte_at at command.now ≡ D.flag_number on)) }
{
    match command.get(at)? {
        0 => Some(false),
        1 => Some(true),
        _ => None,
    }
}

// The lines as two bits of a byte, by number.
#[tactic(auto, unfolding(crate::specs::Decode::bit))]
fn levels(b: u8, scl: u8, sda: u8) -> Levels
    ensures { result ≡ D.levels b (2 ^ scl) (2 ^ sda) }
{
    Levels {
        scl: has(b, scl),
        sda: has(b, sda),
    }
}

// A start, if its image is there too.
fn start(by: Starting, command: &[u8]) -> Option<Command>
    ensures { D.Reads result command.now 32 (D.start by command.now) }
{
    command.get(IMAGE)?;
    Some(Command::Start(by, moment(command, 1)?))
}

// A call at T.
fn timed(command: &[u8], what: Timed) -> Option<Command>
    ensures { D.Reads result command.now 13 (D.timed command.now what) }
{
    Some(Command::Host(Call::At(moment(command, 1)?, what)))
}

#[tactic(auto, unfolding(crate::specs::Decode::named, crate::specs::Decode::operands))]
fn accelerations(command: &[u8]) -> Option<Command>
    ensures { D.or_bad result ≡ D.named Opcode.Accelerations command.now }
{
    let input = Acceleration {
        x: signed(command, 13)?,
        y: signed(command, 17)?,
        z: signed(command, 21)?,
    };
    timed(command, Timed::Accelerations(input))
}

// A byte 0..15: bits 3 and 2 the clock and data before, 1 and 0 after.
#[tactic(auto, unfolding(crate::specs::Decode::named, crate::specs::Decode::operands))]
fn pins(command: &[u8]) -> Option<Command>
    ensures { D.or_bad result ≡ D.named Opcode.Pins command.now }
{
    match *command.get(13)? {
        b @ 0..=15 => timed(command, Timed::Pins(levels(b, 3, 2), levels(b, 1, 0))),
        _ => None,
    }
}

// The command that the opcode names.
#[tactic(auto, unfolding(crate::specs::Decode::named, crate::specs::Decode::operands), using(crate::proofs::Bytes::number_2))]
fn named(opcode: Opcode, command: &[u8]) -> Option<Command>
    ensures { D.or_bad result ≡ D.named opcode command.now }
{
    match opcode {
        Opcode::Start => start(Starting::Checked, command),
        Opcode::Accelerations => accelerations(command),
        Opcode::Temperature => Some(Command::Host(Call::Temperature(signed(command, 1)?))),
        Opcode::Supply => timed(
            command,
            Timed::Supply(u16::from_be_bytes(part(command, 13)?)),
        ),
        Opcode::Due => timed(command, Timed::Due),
        Opcode::Select => Some(Command::Host(Call::Select(flag(command, 1)?))),
        Opcode::Rising => timed(command, Timed::Rising(flag(command, 13)?)),
        Opcode::Falling => timed(command, Timed::Falling),
        Opcode::Pins => pins(command),
        Opcode::StoredImage => Some(Command::Host(Call::StoredImage(moment(command, 1)?, 19))),
        Opcode::View => Some(Command::Host(Call::View(*command.get(1)?))),
        Opcode::StartStored => start(Starting::Stored, command),
    }
}

// The command at the head of the bytes, if they begin with a whole one.
#[tactic(auto, unfolding(crate::specs::Decode::decoded))]
fn head(bytes: &[u8]) -> Option<Command>
    ensures { D.or_bad result ≡ D.decoded bytes.now }
{
    let opcode = Opcode::try_from(*bytes.first()?).ok()?;
    named(opcode, bytes)
}

// The command at the head of the bytes; a bad one, if they begin with none that is whole.
pub fn decode(bytes: &[u8]) -> Command
    ensures { result ≡ D.decoded bytes.now }
{
    head(bytes).unwrap_or(Command::Bad)
}

impl Command {
    // The opcode that it begins with; a bad one has none.
    fn opcode(self) -> Option<Opcode>
        ensures { result ≡ D.opcode_of self }
    {
        match self {
            Command::Start(Starting::Checked, _) => Some(Opcode::Start),
            Command::Host(Call::At(_, Timed::Accelerations(_))) => Some(Opcode::Accelerations),
            Command::Host(Call::Temperature(_)) => Some(Opcode::Temperature),
            Command::Host(Call::At(_, Timed::Supply(_))) => Some(Opcode::Supply),
            Command::Host(Call::At(_, Timed::Due)) => Some(Opcode::Due),
            Command::Host(Call::Select(_)) => Some(Opcode::Select),
            Command::Host(Call::At(_, Timed::Rising(_))) => Some(Opcode::Rising),
            Command::Host(Call::At(_, Timed::Falling)) => Some(Opcode::Falling),
            Command::Host(Call::At(_, Timed::Pins(_, _))) => Some(Opcode::Pins),
            Command::Host(Call::StoredImage(_, _)) => Some(Opcode::StoredImage),
            Command::Host(Call::View(_)) => Some(Opcode::View),
            Command::Start(Starting::Stored, _) => Some(Opcode::StartStored),
            Command::Bad => None,
        }
    }
}

// How many bytes a command is; a bad one takes its first.
#[tactic(auto, unfolding(crate::specs::Decode::size))]
pub fn size(c: Command) -> usize
    ensures { result ≡ D.size c }
{
    c.opcode().map_or(1, Opcode::size)
}

// Whether a command is refused with number 7.
#[tactic(auto, unfolding(crate::specs::Decode::is_bad))]
pub fn is_bad(c: Command) -> bool
    ensures { result ≡ D.is_bad c }
{
    matches!(c, Command::Bad)
}

// How many bytes a command has that begins with this byte; an unknown byte is whole at once.
#[tactic(auto, unfolding(crate::specs::Decode::wants))]
pub fn wants(c: u8) -> usize
    ensures { result ≡ D.wants c }
{
    Opcode::try_from(c).map_or(1, Opcode::size)
}
