// The bytes that were read and are yet to be served.
ghost use Rattle.std.specs.Prelude.{◌≡◌, [], drop};
ghost use Rattle.blocks.specs.Kept.{Filled};

use crate::SIZE;
use std::io;
use std::io::Read;
use std::marker::Model;

// They stand from `at` to `have`. No `BufReader`, which allocates, and no `ArrayVec`: bytes leave in front and come behind, and are
// moved once for each read.
#[derive(Drop)]
pub struct KeptBytes {
    buf: [u8; SIZE],
    at: usize,
    have: usize,
}

impl Model for KeptBytes {
    ghost use Rattle.std.specs.Prelude.{ℕ, ◌-◌, ◌≤◌, List, take, drop};

    ghost Value = { List ℕ };

    ghost view = { λ k. take (k.have - k.at) (drop k.at k.buf) };

    ghost invariant = { λ k. (k.at ≤ k.have) × (k.have ≤ 65536) };
}

impl KeptBytes {
    pub fn new() -> KeptBytes
        ensures { result ≡ [] }
    {
        KeptBytes {
            buf: [0; SIZE],
            at: 0,
            have: 0,
        }
    }

    pub fn bytes(&self) -> &[u8]
        ensures { result.now ≡ self.now }
    {
        &self.buf[self.at..self.have]
    }

    // Drops the first n, or all where they are fewer.
    pub fn skip(&mut self, n: usize)
        ensures { self.new ≡ drop n self.old }
    {
        self.at += n.min(self.have - self.at);
    }

    // Reads once, behind them.
    pub fn fill<R: Read>(&mut self, input: &mut R) -> io::Result<usize>
        ensures { Filled (R.remaining input.old) (R.remaining input.new) self.old self.new result }
    {
        self.buf.copy_within(self.at..self.have, 0);
        self.have -= self.at;
        self.at = 0;
        let got = input.read(&mut self.buf[self.have..])?;
        self.have += got;
        Ok(got)
    }
}
