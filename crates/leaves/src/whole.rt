// Standard input by whole blocks: a block is answered when all of it has come, or no more comes.
ghost use Rattle.std.specs.Prelude.{◌≤◌, length, IfOk};

use std::io;
use std::io::Read;

// How many bytes a record has.
const RECORD: usize = 32;

// Reads until buf is full or the input ends, and returns how many bytes it put at the start of buf.
fn read_full<R: Read>(input: &mut R, buf: &mut [u8]) -> io::Result<usize>
    ensures { IfOk result (λ n. n ≤ length buf.new) }
{
    let mut done = 0;
    while done < buf.len() {
        let n = input.read(&mut buf[done..])?;
        if n == 0 {
            break;
        }
        done += n;
    }
    Ok(done)
}

// A reader whose reads go on until what they fill is full or the input ends. What comes before the end and is no whole record is left out.
#[derive(Drop)]
pub(crate) struct WholeBlocks<R>(pub(crate) R);

impl<R: Read> Read for WholeBlocks<R> {
    fn read(&mut self, buf: &mut [u8]) -> io::Result<usize> {
        let done = read_full(&mut self.0, buf)?;
        Ok(done - done % RECORD)
    }
}
