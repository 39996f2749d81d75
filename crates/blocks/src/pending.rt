// The bytes that are yet to be written. Their list is the model, as of the bench's `Line`: a type has to say its own.
ghost use Rattle.std.specs.Prelude.{◌≡◌, ◌≤◌, [], length, OnOk};
ghost use Rattle.std.specs.Io.KnownBytes.{Appends};
ghost use Rattle.blocks.specs.Pending.{Handed};

use crate::SIZE;
use arrayvec::ArrayVec;
use std::io;
use std::io::Write;
use std::marker::Model;

#[derive(Drop)]
pub(crate) struct Pending(ArrayVec<u8, SIZE>);

impl Model for Pending {
    ghost use Rattle.std.specs.Prelude.{ℕ, List};

    ghost Value = { List ℕ };

    ghost view = { λ p. p.0.items };
}

impl Pending {
    pub(crate) fn new() -> Pending
        ensures { result ≡ [] }
    {
        Pending(ArrayVec::new())
    }

    // Hands them to the writer.
    pub(crate) fn flush<W: Write>(&mut self, output: &mut W) -> io::Result<()>
        ensures taken { OnOk result (Appends (W.contents output.old) (W.contents output.new) self.old) }
        ensures none_left { OnOk result (self.new ≡ []) }
    {
        output.write_all(self.0.as_slice())?;
        self.0.clear();
        Ok(())
    }

    // Puts a text behind them; where there is no room for it, they are handed to the writer first.
    pub(crate) fn put<W: Write>(&mut self, output: &mut W, text: &[u8]) -> io::Result<()>
        requires { length text.now ≤ SIZE }
        ensures { OnOk result (Handed (W.contents output.old) (W.contents output.new) self.old text.now self.new) }
    {
        if self.0.try_extend_from_slice(text).is_err() {
            self.flush(output)?;
            // There is room now.
            let _ = self.0.try_extend_from_slice(text);
        }
        Ok(())
    }
}
