// Input and output by blocks: the bytes that were read and are yet to be used, and a program that answers each item of its input.
#![tactic(auto)]

ghost use Rattle.std.specs.Prelude.{◌≤◌, ℕ, List, OnOk, OnErr, ⊤};
ghost use Rattle.blocks.specs.Answered.{Answered, BrokenOff};

use crate::pending::Pending;
use std::io;
use std::io::{Read, Write};

// How many bytes are kept, and how many wait to be written, at most.
pub(crate) const SIZE: usize = 65536;

mod kept;
mod pending;

pub use kept::KeptBytes;

// What answers an item of N bytes by M bytes.
pub trait Answers<const N: usize, const M: usize> {
    // What an item may be answered by, from one state to another: anything where an implementation does not say it, and neither of this
    // repository's two does.
    ghost gives: { Self → List ℕ → List ℕ → Self → Type 0 } = { λ _ _ _ _. ⊤ };

    fn answer(&mut self, item: &[u8; N]) -> [u8; M]
        ensures { gives self.old item.now result self.new };
}

// Answers each item of the input until the input ends; bytes at its end that are no whole item are left out. No contract of std says when a
// read or a write fails, or what a write that failed left in its writer: so `broken_off` says neither.
pub fn drive<const N: usize, const M: usize, A: Answers<N, M>, R: Read, W: Write>(
    machine: &mut A,
    input: &mut R,
    output: &mut W,
) -> io::Result<()>
    ensures answered { OnOk result (Answered A.gives N M machine.old machine.new (R.remaining input.old) (R.remaining input.new) (W.contents output.old) (W.contents output.new)) }
    ensures broken_off { OnErr result (BrokenOff A.gives N M machine.old machine.new (R.remaining input.old) (R.remaining input.new)) }
{
    // An error, and no clause on N and M: no public function of this repository has a `requires`.
    if SIZE < N || SIZE < M {
        return Err(io::Error::from(io::ErrorKind::InvalidInput));
    }
    let mut kept = KeptBytes::new();
    let mut pending = Pending::new();
    for _ in 0..u64::MAX {
        match kept.bytes().first_chunk() {
            Some(item) => {
                pending.put(output, &machine.answer(item))?;
                kept.skip(N);
            }
            None => {
                pending.flush(output)?;
                if kept.fill(input)? == 0 {
                    return Ok(());
                }
            }
        }
    }
    // No run has as many turns as this.
    Err(io::Error::from(io::ErrorKind::Other))
}
