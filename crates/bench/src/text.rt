// A line as it is written: bytes, digits and words, one after the other.
ghost use Rattle.std.specs.Prelude.{◌≡◌, ◌≤◌, ◌<◌, [], ◌∷◌, length};
ghost use Rattle.bench.specs.Text as T;

use arrayvec::ArrayVec;
use std::marker::Model;

// How many bytes a line has room for.
pub(crate) const LINE_ROOM: usize = 128;

// The text of a line: what goes beyond its room is left out, and no line does (`reply`).
#[derive(Drop)]
pub(crate) struct Line(ArrayVec<u8, LINE_ROOM>);

impl Model for Line {
    ghost use Rattle.std.specs.Prelude.{ℕ, List};

    ghost Value = { List ℕ };

    ghost view = { λ l. l.0.items };
}

// A hexadecimal digit. `char::from_digit` answers an `Option<char>`, and `hex` of the kit would be a crate more for two lines.
fn digit(x: u8) -> u8
    requires { x < 16 }
    ensures { result ≡ T.digit x }
{
    if x < 10 { b'0' + x } else { b'a' + (x - 10) }
}

impl Line {
    pub(crate) fn new() -> Line
        ensures { result ≡ [] }
    {
        Line(ArrayVec::new())
    }

    pub(crate) fn text(&self) -> &[u8]
        ensures value { result.now ≡ self.now }
        ensures fits { length result.now ≤ 128 }
    {
        self.0.as_slice()
    }

    #[tactic(auto, using(crate::proofs::Appended::put_there, crate::proofs::Appended::put_full))]
    pub(crate) fn put(&mut self, b: u8)
        ensures { self.new ≡ T.appended self.old (b ∷ []) }
    {
        if !self.0.is_full() {
            self.0.push(b);
        }
    }

    #[tactic(auto, using(crate::proofs::Appended::none, crate::proofs::Appended::word_step))]
    pub(crate) fn word(&mut self, w: &[u8])
        ensures { self.new ≡ T.appended self.old w.now }
    {
        for b in w {
            self.put(*b);
        }
    }

    #[tactic(auto, using(crate::proofs::Appended::both))]
    pub(crate) fn hex(&mut self, b: u8)
        ensures { self.new ≡ T.appended self.old (T.hex b) }
    {
        self.put(digit(b / 16));
        self.put(digit(b % 16));
    }

    // The loop of `word` with another method. One function for both would take the method as a parameter, with its contract, for one line.
    #[tactic(auto, using(crate::proofs::Appended::none, crate::proofs::Appended::hexes_step))]
    pub(crate) fn hexes(&mut self, w: &[u8])
        ensures { self.new ≡ T.appended self.old (T.hexes w.now) }
    {
        for b in w {
            self.hex(*b);
        }
    }
}
