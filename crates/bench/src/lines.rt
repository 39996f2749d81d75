// A command's line: the command in hexadecimal, the word, the pins, what the command adds, the trace's next due, a line feed.
// Not by `Display`: it was tried, and nothing in std says that a `write!` succeeds, while a line cannot fail.
ghost use Rattle.std.specs.Prelude.{◌≡◌, ◌≤◌, [], ◌∷◌, length};
ghost use Rattle.deadlines.specs.Deadlines.{moment};
ghost use Rattle.calls.specs.Table as R;
ghost use Rattle.bma150.specs.Values as Vals;
ghost use Rattle.bma150.specs.Called as K;
ghost use Rattle.bench.specs.Text as T;
ghost use Rattle.bench.specs.Line as L;

use crate::text::Line;
use crate::types::{Answer, Extra};
use bma150::host::Bma150;
use calls::types::Refusal;
use sensor::types::Mark;
use spi::types::Drive;
use time::Time;
use waits::types::Report;

#[tactic(auto, unfolding(crate::specs::Text::word, calls::specs::Table::refusal_number))]
fn word(why: Refusal) -> &'static [u8]
    ensures { result.now ≡ T.word (R.refusal_number why) }
{
    match why {
        Refusal::ImageLength => b"image-length",
        Refusal::AxisRange => b"axis-range",
        Refusal::TimeLimit => b"time-limit",
        Refusal::TimeBack => b"time-back",
        Refusal::DueFirst => b"due-first",
        Refusal::NotDue => b"not-due",
        Refusal::Command => b"command",
        Refusal::PinJump => b"pin-jump",
        Refusal::ReservedCode => b"reserved-code",
    }
}

#[tactic(auto, unfolding(crate::specs::Text::bit))]
fn bit(b: bool) -> u8
    ensures { result ≡ T.bit b }
{
    b'0' + u8::from(b)
}

#[tactic(auto, unfolding(bma150::specs::Values::drive_letter))]
fn letter(d: Drive) -> u8
    ensures { result ≡ Vals.drive_letter d }
{
    match d {
        Drive::Floating => b'F',
        Drive::Low => b'L',
        Drive::High => b'H',
    }
}

// Interrupt, four-wire output, data pin.
#[tactic(auto, unfolding(crate::specs::Line::pins))]
fn pins(s: &Bma150) -> [u8; 6]
    ensures { result ≡ L.pins s.now }
{
    let interrupt = bit(s.interrupt());
    let output = letter(s.output());
    let data = letter(s.data_output());
    [b' ', interrupt, b' ', output, b' ', data]
}

impl Line {
    // `ok`, or why the command is refused.
    #[tactic(auto, unfolding(crate::specs::Text::word, calls::specs::Table::number))]
    fn answer(&mut self, answer: Answer)
        ensures { self.new ≡ T.appended self.old (T.word (R.number answer)) }
    {
        match answer {
            Ok(_) => self.word(b"ok"),
            Err(why) => self.word(word(why)),
        }
    }

    // A report's address and byte.
    #[tactic(auto, using(crate::proofs::Appended::both))]
    fn stored(&mut self, address: u8, byte: u8)
        ensures { self.new ≡ T.appended self.old (T.spaced (address ∷ byte ∷ [])) }
    {
        self.put(b' ');
        self.hex(address);
        self.put(b' ');
        self.hex(byte);
    }

    #[tactic(auto, unfolding(crate::specs::Text::report_text, bma150::specs::Values::report_values), using(crate::proofs::Appended::both))]
    fn report(&mut self, report: Option<Report>)
        ensures { self.new ≡ T.appended self.old (T.report_text (Vals.report_values report)) }
    {
        match report {
            None => self.word(b" -"),
            Some(Report::Completed(address, byte)) => {
                self.word(b" C");
                self.stored(address, byte);
            }
            Some(Report::Cut(address, byte)) => {
                self.word(b" X");
                self.stored(address, byte);
            }
        }
    }

    #[tactic(auto, unfolding(crate::specs::Text::view_text, bma150::specs::Values::view_value), using(crate::proofs::Appended::both))]
    fn view(&mut self, view: Option<u8>)
        ensures { self.new ≡ T.appended self.old (T.view_text (Vals.view_value view)) }
    {
        match view {
            Some(b) => {
                self.put(b' ');
                self.hex(b);
            }
            None => self.word(b" --"),
        }
    }

    #[tactic(auto, unfolding(crate::specs::Text::mark_text, bma150::specs::Values::mark_letter), using(crate::proofs::Appended::none))]
    fn mark(&mut self, mark: Option<Mark>)
        ensures { self.new ≡ T.appended self.old (T.mark_text (Vals.mark_letter mark)) }
    {
        match mark {
            Some(Mark::Mean) => self.word(b" m"),
            Some(Mark::Single) => self.word(b" s"),
            None => {}
        }
    }

    // 38 digits.
    #[tactic(auto, unfolding(crate::specs::Text::image_text), using(crate::proofs::Appended::both, crate::proofs::Fits::image_fits))]
    fn image(&mut self, image: &[u8; 19])
        ensures text { self.new ≡ T.appended self.old (T.image_text image.now) }
        ensures fits { length (T.image_text image.now) ≤ 39 }
    {
        self.put(b' ');
        self.hexes(image);
    }

    // What a command adds, if it is accepted and adds anything.
    #[tactic(auto, unfolding(crate::specs::Line::extra_adds, crate::specs::Line::added_text, bma150::specs::Called::of_view), using(crate::proofs::Appended::both, crate::proofs::Appended::none, crate::proofs::Fits::report_fits, crate::proofs::Fits::viewed_fits))]
    fn added(&mut self, answer: Answer)
        ensures text { self.new ≡ T.appended self.old (L.added_text (L.answer_adds answer)) }
        ensures fits { length (L.added_text (L.answer_adds answer)) ≤ 39 }
    {
        match answer {
            Ok(Some(Extra::Reported(report))) => self.report(report),
            Ok(Some(Extra::Viewed(viewed))) => {
                self.view(viewed.map(|v| v.byte));
                self.mark(viewed.and_then(|v| v.mark));
            }
            Ok(Some(Extra::Image(image))) => self.image(&image),
            Ok(None) | Err(_) => {}
        }
    }

    // Seconds and fraction of 16 digits each.
    #[tactic(auto, unfolding(crate::specs::Text::moment_text), using(crate::proofs::Appended::both, crate::proofs::Hex::hex16_is))]
    fn moment(&mut self, due: Option<Time>)
        ensures { self.new ≡ T.appended self.old (T.moment_text (moment due)) }
    {
        match due {
            Some(t) => {
                self.hexes(&t.0.to_be_bytes());
                self.put(b' ');
                self.hexes(&t.1.to_be_bytes());
            }
            None => self.word(b"-"),
        }
    }

    #[tactic(auto, unfolding(crate::specs::Text::due_text), using(crate::proofs::Appended::both, crate::proofs::Appended::none))]
    fn due(&mut self, trace: bool, s: &Bma150)
        ensures { self.new ≡ T.appended self.old (T.due_text trace (K.next_due s.now)) }
    {
        if trace {
            self.word(b" due ");
            self.moment(s.next_due());
        }
    }

    // The line of a command that begins with b and left this sensor and this answer.
    #[tactic(auto, unfolding(crate::specs::Line::line))]
    pub(crate) fn reply(&mut self, trace: bool, b: u8, sensor: &Bma150, answer: Answer)
        requires { self.old ≡ [] }
        ensures { self.new ≡ L.line trace b (L.left sensor.now answer) }
    {
        self.hex(b);
        self.put(b' ');
        self.answer(answer);
        self.word(&pins(sensor));
        self.added(answer);
        self.due(trace, sensor);
        self.put(b'\n');
    }
}
