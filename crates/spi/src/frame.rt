// One SPI frame, edge by edge.
ghost use Rattle.std.specs.Prelude.{◌≡◌, ◌<◌};
ghost use Rattle.spi.specs.Frame as F;

use crate::types::{Clocked, Drive, Frame, Serial, Shift, Taken};
use laws::{sent_bit, shifted_in};

// When the output moves.
#[tactic(auto, unfolding(crate::specs::Frame::moves))]
fn moves(at: Clocked, four_wire: bool, turnaround: bool) -> bool
    ensures { result ≡ F.moves at four_wire turnaround }
{
    match at {
        Clocked::Rise => !four_wire && !turnaround,
        Clocked::Turnaround => true,
        Clocked::Fall => four_wire,
    }
}

// The level of bit n of a byte.
#[tactic(auto, unfolding(crate::specs::Frame::bit_drive))]
fn drive(byte: u8, n: u8) -> Drive
    ensures { result ≡ F.bit_drive byte n }
{
    if sent_bit(byte, n) {
        Drive::High
    } else {
        Drive::Low
    }
}

// The pin shows bit n of the byte being sent, while selected.
#[tactic(auto, unfolding(crate::specs::Frame::level))]
fn level(tx: Option<u8>, selected: bool, n: u8) -> Drive
    ensures { result ≡ F.level tx selected n }
{
    match tx {
        Some(byte) if selected && n < 8 => drive(byte, n),
        _ => Drive::Floating,
    }
}

impl Serial {
    // A register is being read.
    #[tactic(auto, unfolding(crate::specs::Frame::reads))]
    fn reads(self) -> bool
        ensures { result ≡ F.reads self }
    {
        matches!(self, Serial::Read(_))
    }

    // At the first bit of a byte that is read the read begins.
    #[tactic(auto, unfolding(crate::specs::Frame::first_bit))]
    fn first_bit(self, bits: u8) -> Option<u8>
        ensures { result ≡ F.first_bit self bits }
    {
        match self {
            Serial::Read(a) if bits == 0 => Some(a),
            _ => None,
        }
    }

    // Before the first bit of a byte that is read its register is fetched.
    #[tactic(auto, unfolding(crate::specs::Frame::fetches))]
    fn fetches(self, n: u8) -> Shift
        ensures { result ≡ F.fetches self n }
    {
        match self {
            Serial::Read(a) if n == 0 => Shift::Fetch(a),
            _ => Shift::Next,
        }
    }
}

impl Frame {
    // A frame before its first bit.
    pub fn fresh(selected: bool) -> Frame
        ensures { result ≡ F.fresh selected }
    {
        Frame {
            serial: Serial::Address,
            selected,
            rx: 0,
            rx_bits: 0,
            tx: None,
            tx_bit: 8,
            driven: Drive::Floating,
            turnaround: false,
        }
    }

    // Whether the select pin changes.
    #[tactic(auto, unfolding(crate::specs::Frame::differs))]
    pub fn changes(self, selected: bool) -> bool
        ensures { result ≡ F.changes self selected }
    {
        self.selected != selected
    }

    // The select pin has this level.
    #[tactic(auto, unfolding(crate::specs::Frame::select))]
    pub fn select(self, selected: bool) -> Frame
        ensures { result ≡ F.select self selected }
    {
        if self.changes(selected) {
            return Frame::fresh(selected);
        }
        self
    }

    // The register whose read begins at this rise.
    pub fn first_bit(self) -> Option<u8>
        ensures { result ≡ F.first_bit self.serial self.rx_bits }
    {
        self.serial.first_bit(self.rx_bits)
    }

    // A bit within a byte is received.
    fn bit_taken(self, mosi: bool) -> Frame
        requires { self.rx_bits < 7 }
        ensures { result ≡ F.bit_taken self mosi }
    {
        Frame {
            rx: shifted_in(self.rx, mosi),
            rx_bits: self.rx_bits + 1,
            ..self
        }
    }

    // A byte is received anew, of the frame's next part.
    fn next_byte(self, serial: Serial) -> Frame
        ensures { result ≡ F.next_byte self serial }
    {
        Frame {
            serial,
            rx: 0,
            rx_bits: 0,
            ..self
        }
    }

    // The byte of register a is sent next.
    fn next_read(self, a: u8, turnaround: bool) -> Frame
        ensures { result ≡ F.next_read self a turnaround }
    {
        Frame {
            tx: None,
            tx_bit: 0,
            turnaround,
            ..self.next_byte(Serial::Read(a))
        }
    }

    // The address byte is complete: its bit 7 tells a read from a write.
    #[tactic(auto, unfolding(crate::specs::Frame::addressed))]
    fn addressed(self, byte: u8, four_wire: bool) -> Frame
        ensures { result ≡ F.addressed self byte four_wire }
    {
        if byte < 128 {
            return self.next_byte(Serial::Write(byte));
        }
        self.next_read(byte % 128, !four_wire)
    }

    // A byte is complete. After a read the next register follows, modulo 128: one expression, as in `pointer_after` of I2C, which a
    // function for both would only name.
    #[tactic(auto, unfolding(crate::specs::Frame::completed))]
    fn completed(self, byte: u8, four_wire: bool) -> Taken
        ensures { result ≡ F.completed self.serial self byte four_wire }
    {
        match self.serial {
            Serial::Address => Taken {
                frame: self.addressed(byte, four_wire),
                write: None,
            },
            Serial::Read(a) => Taken {
                frame: self.next_read(a.wrapping_add(1) % 128, self.turnaround),
                write: None,
            },
            Serial::Write(a) => Taken {
                frame: self.next_byte(Serial::Address),
                write: Some((a, byte)),
            },
        }
    }

    // A rise outside a turnaround takes a bit.
    #[tactic(auto, unfolding(crate::specs::Frame::take_bit))]
    pub fn take_bit(self, mosi: bool, four_wire: bool) -> Taken
        ensures { result ≡ F.take_bit self mosi four_wire }
    {
        if self.rx_bits < 7 {
            return Taken {
                frame: self.bit_taken(mosi),
                write: None,
            };
        }
        self.completed(shifted_in(self.rx, mosi), four_wire)
    }

    // What the output does at this edge, with the wire mode as it is now.
    #[tactic(auto, unfolding(crate::specs::Frame::shifts))]
    pub fn shifts(self, at: Clocked, four_wire: bool) -> Shift
        ensures { result ≡ F.shifts self at four_wire }
    {
        if moves(at, four_wire, self.turnaround) {
            return self.serial.fetches(self.tx_bit);
        }
        Shift::Stay
    }

    // The turnaround is over.
    pub fn turned(self) -> Frame
        ensures { result ≡ F.turned self }
    {
        Frame {
            turnaround: false,
            ..self
        }
    }

    // The pin shows the next bit of the byte being sent.
    #[tactic(auto, unfolding(crate::specs::Frame::next_bit))]
    fn showing(self, tx: Option<u8>) -> Frame
        ensures { result ≡ F.showing self tx }
    {
        Frame {
            tx,
            tx_bit: self.tx_bit.saturating_add(1).min(8),
            driven: level(tx, self.selected, self.tx_bit),
            ..self
        }
    }

    // The output moves on, with the byte now being sent.
    #[tactic(auto, unfolding(crate::specs::Frame::moved, crate::specs::Frame::reads))]
    pub fn shifted(self, tx: Option<u8>) -> Frame
        ensures { result ≡ F.shifted self tx }
    {
        if self.serial.reads() {
            return self.showing(tx);
        }
        self.released()
    }

    // The driver is released.
    pub fn released(self) -> Frame
        ensures { result ≡ F.released self }
    {
        Frame {
            driven: Drive::Floating,
            ..self
        }
    }

    // The byte being sent is this one.
    pub fn sending(self, tx: Option<u8>) -> Frame
        ensures { result ≡ F.sending self tx }
    {
        Frame { tx, ..self }
    }

    // Whether a rise uses converted values, so that a sample at the same moment comes first.
    #[tactic(auto, unfolding(crate::specs::Frame::consumes_at_rise))]
    pub fn consumes_at_rise(self) -> bool
        ensures { result ≡ F.consumes_at_rise self }
    {
        self.turnaround || 7 <= self.rx_bits || self.serial.reads() && self.rx_bits == 0
    }

    // Whether a fall does.
    #[tactic(auto, unfolding(crate::specs::Frame::consumes_at_fall))]
    pub fn consumes_at_fall(self, four_wire: bool) -> bool
        ensures { result ≡ F.consumes_at_fall self four_wire }
    {
        four_wire && self.serial.reads() && self.tx_bit == 0
    }
}
