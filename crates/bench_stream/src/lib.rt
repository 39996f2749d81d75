// The bench program's loop: standard input to standard output, a turn at a time. A turn reads, or serves the commands that are there and writes
// their lines to the output.
#![tactic(auto)]

ghost use Rattle.std.specs.Prelude.{◌≡◌, Bool, true, false, List, [], ℕ, Option, None};
ghost use Rattle.std.specs.Io.KnownBytes.{Keeps};
ghost use Rattle.bench.specs.Block.{is_whole};
ghost use Rattle.bench_stream.specs.Loop as S;

use arrayvec::{ArrayString, ArrayVec};
use bench::{TEXT, is_whole, run};
use blocks::KeptBytes;
use bma150::host::Bma150;
use sensor::image::stock;
use std::fmt;
use std::fmt::Write as _;
use std::io::{Read, Write};
use time::Time;

// What could not be done.
#[derive(Clone, Copy, PartialEq, Eq, Debug)]
pub enum Failed {
    Read,
    Write,
}

impl fmt::Display for Failed {
    ghost use Rattle.std.specs.Prelude.{Some};
    ghost use Rattle.bench_stream.specs.Message.{message};

    ghost output = { λ what. Some (message what) };

    #[tactic(auto, unfolding(crate::specs::Message::message))]
    fn fmt<W: fmt::Write>(&self, f: &mut fmt::Formatter<W>) -> fmt::Result {
        match self {
            Failed::Read => write!(
                f,
                "a read of standard input failed; the commands before it are answered"
            ),
            Failed::Write => write!(f, "a write to standard output failed; lines are missing"),
        }
    }
}

// Between two turns. `over`: no more input comes; `stop`: refusal 7 was met; `failed`: what the last turn could not do; `left`: the bytes that
// were read and are yet to be served; `written`: the bytes of text that the last turn made.
#[derive(Clone, Copy)]
pub struct Turn {
    pub over: bool,
    pub stop: bool,
    pub failed: Option<Failed>,
    pub left: usize,
    pub written: usize,
    pub sensor: Bma150,
}

// More input. A read of nothing is the input's end; a read that fails is not.
fn more<R: Read>(input: &mut R, kept: &mut KeptBytes, t: Turn) -> Turn
    requires going { S.goes_on t kept.old ≡ true }
    requires few { (t.over ≡ false) × (is_whole false kept.old ≡ false) }
    ensures { (trace : Bool) (o : List ℕ) (v : Option (List ℕ)) → S.Stepped trace t kept.old result kept.new o (R.remaining input.old) (R.remaining input.new) v v }
{
    match kept.fill(input) {
        Ok(got) => Turn {
            over: got == 0,
            left: kept.bytes().len(),
            written: 0,
            ..t
        },
        Err(_) => Turn {
            failed: Some(Failed::Read),
            left: kept.bytes().len(),
            written: 0,
            ..t
        },
    }
}

// A block on the kept bytes, whose text is written to the output; a write that fails ends the loop.
// `kept`, `out` and `trace` stand apart here and below: a struct of them would be made in `stream` only to be taken apart here.
fn commands<W: Write>(
    output: &mut W,
    kept: &mut KeptBytes,
    out: &mut ArrayVec<u8, TEXT>,
    trace: bool,
    t: Turn,
) -> Turn
    requires { S.Enough t kept.old }
    ensures { (a : Option (List ℕ)) → S.Stepped trace t kept.old result kept.new out.new.items a a (W.contents output.old) (W.contents output.new) }
{
    let ran = run(kept.bytes(), t.over, trace, out, t.sensor);
    kept.skip(ran.read);
    let taken = output.write_all(out.as_slice());
    let left = kept.bytes().len();
    Turn {
        stop: ran.stop,
        failed: taken.err().map(|_| Failed::Write),
        left,
        written: out.len(),
        sensor: ran.sensor,
        ..t
    }
}

// A block where a whole command is kept or no more comes, else input.
fn step<R: Read, W: Write>(
    input: &mut R,
    output: &mut W,
    kept: &mut KeptBytes,
    out: &mut ArrayVec<u8, TEXT>,
    trace: bool,
    t: Turn,
) -> Turn
    requires { S.goes_on t kept.old ≡ true }
    ensures { S.Stepped trace t kept.old result kept.new out.new.items (R.remaining input.old) (R.remaining input.new) (W.contents output.old) (W.contents output.new) }
{
    if t.over || is_whole(kept.bytes(), false) {
        commands(output, kept, out, trace, t)
    } else {
        more(input, kept, t)
    }
}

// Whether something is left to do.
#[tactic(auto, unfolding(crate::specs::Loop::goes_on))]
fn goes_on(t: Turn, kept: &KeptBytes) -> bool
    ensures { result ≡ S.goes_on t kept.now }
{
    !t.stop && t.failed.is_none() && (!t.over || !kept.bytes().is_empty())
}

fn begin() -> Turn
    ensures { result ≡ S.first }
{
    Turn {
        over: false,
        stop: false,
        failed: None,
        left: 0,
        written: 0,
        sensor: Bma150::start(Time(0, 0), &stock()).sensor,
    }
}

// The turns, as many as a run can have.
fn turns<R: Read, W: Write>(
    input: &mut R,
    output: &mut W,
    kept: &mut KeptBytes,
    out: &mut ArrayVec<u8, TEXT>,
    trace: bool,
) -> Turn
    requires { kept.old ≡ [] }
    ensures { S.Streamed trace result (R.remaining input.old) (R.remaining input.new) (W.contents output.old) (W.contents output.new) }
{
    let mut t = begin();
    for _ in 0..u64::MAX {
        if !goes_on(t, kept) {
            break;
        }
        t = step(input, output, kept, out, trace, t);
    }
    t
}

// Commands from standard input, lines to standard output, what failed to standard error; the answer is the loop's last state.
pub fn stream<R: Read, W: Write, E: Write>(
    input: &mut R,
    output: &mut W,
    errors: &mut E,
    trace: bool,
) -> Turn
    ensures ended { S.Ended trace result }
    ensures moved { S.Streamed trace result (R.remaining input.old) (R.remaining input.new) (W.contents output.old) (W.contents output.new) }
    ensures silent { result.failed ≡ None → Keeps (E.contents errors.old) (E.contents errors.new) }
{
    let mut kept = KeptBytes::new();
    let mut out = ArrayVec::new();
    let t = turns(input, output, &mut kept, &mut out, trace);
    if let Some(what) = t.failed {
        // In one write, whoever else writes there; it has room for either text. There is nowhere to tell that this failed.
        let mut said = ArrayString::<128>::new();
        let _ = writeln!(said, "bench: {what}");
        let _ = errors.write_all(said.as_str().as_bytes());
    }
    t
}
