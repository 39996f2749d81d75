// The bench program's library: commands to calls, replies to lines, and the run over a block of input.
#![tactic(auto)]

ghost use Rattle.std.specs.Prelude.{◌≡◌, not, cond, ◌&&◌, ◌||◌, ◌≤◌, eqb, length, drop};
ghost use Rattle.bench.specs.Block as B;

use crate::steps::serve;
use crate::text::{LINE_ROOM, Line};
use arrayvec::ArrayVec;
use bma150::host::Bma150;
use commands::{Opcode, decode, is_bad, size, wants};

mod lines;
mod steps;
mod text;
pub mod types;

// How many bytes of text a block makes, at most.
pub const TEXT: usize = 65536;

// The last place in it at which a line surely fits.
const ROOM: usize = TEXT - LINE_ROOM;

// After a block: the sensor, the bytes read, and whether refusal 7 stopped it.
#[derive(Clone, Copy)]
pub struct Ran {
    pub sensor: Bma150,
    pub read: usize,
    pub stop: bool,
}

// Whether a whole command stands at the head: all its bytes are there, or no more come. Without a byte there is none.
#[tactic(auto, unfolding(crate::specs::Block::is_whole), using(crate::specs::Theorems::Loop::none_left))]
pub fn is_whole(bytes: &[u8], over: bool) -> bool
    ensures { result ≡ B.is_whole over bytes.now }
{
    bytes
        .first()
        .is_some_and(|first| over || wants(*first) <= bytes.len())
}

// Whether the next due or pin command is lent, after a command with first byte b: for the trace every second one of a block is.
#[tactic(auto, unfolding(commands::specs::Decode::opcode))]
fn turned(trace: bool, lent: bool, b: u8) -> bool
    ensures { result ≡ (trace && cond (eqb b 5 || eqb b 9) (not lent) lent) }
{
    trace && lent != matches!(Opcode::try_from(b), Ok(Opcode::Due | Opcode::Pins))
}

// The commands of a block of input, while a whole one is left and a line fits; their lines are what stands in `out` then.
pub fn run(
    input: &[u8],
    over: bool,
    trace: bool,
    out: &mut ArrayVec<u8, TEXT>,
    mut sensor: Bma150,
) -> Ran
    ensures value { result ≡ B.answer (length input.now) (B.block trace over sensor input.now) }
    ensures text { out.new.items ≡ (B.block trace over sensor input.now).text }
    ensures input_value { (B.block trace over sensor input.now).left ≡ drop result.read input.now }
    ensures read_in_bounds { result.read ≤ length input.now }
{
    let mut left = input;
    let mut stop = false;
    let mut lent = false;
    out.clear();
    while !stop && out.len() <= ROOM && is_whole(left, over) {
        let b = left[0];
        let command = decode(left);
        let answer = serve(&mut sensor, command, left, lent);
        let mut line = Line::new();
        line.reply(trace, b, &sensor, answer);
        // There is room for it.
        let _ = out.try_extend_from_slice(line.text());
        left = &left[size(command)..];
        stop = is_bad(command);
        lent = turned(trace, lent, b);
    }
    Ran {
        sensor,
        read: input.len() - left.len(),
        stop,
    }
}
