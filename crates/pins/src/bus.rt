// An event: 00..0f a report of the two lines (bits 3 and 2 the clock and data before, 1 and 0 after), 10 and 11 select,
// 20 and 21 a rise with that data level, 30 a fall, 40 the quiet time ends, 60 and 61 a start in four- or three-wire
// mode, 80..ff a view of a register. They stay the numbers of the protocol (oracle/README.md): each is read and
// served in one arm, where a record of `leaves` has its operands beside its kind.
use crate::both::{FOUR_WIRES, NO_VIEW, Sensor, THREE_WIRES, start};
use blocks::Answers;
use i2c::types::{Action, Levels};
use registers::fields::has;
use spi::types::{Clocked, Shift};

// The byte that I2C sends: ones where there is none (`ones_for` of `serial`, which stands above).
fn sent_byte(tx: Option<u8>) -> u8 {
    tx.unwrap_or(0xff)
}

// The lines as two bits of an event, by number. `commands` has the same for its operand; `i2c`, on which both stand, knows no bits of a byte.
fn levels(e: u8, scl: u8, sda: u8) -> Levels {
    Levels {
        scl: has(e, scl),
        sda: has(e, sda),
    }
}

// An event changes the sensor where it stands: handed on by value, it took up to 1.4 times the instructions.
impl Sensor {
    // Whether converted values were used, which shows only while a sample is next.
    fn tell(&mut self, consumes: bool) {
        if self.awake {
            self.consumed = consumes;
        }
    }

    fn launch(&mut self, address: u8) {
        let tx = self.fetched(address);
        self.frame = self.frame.sending(tx);
        self.i2c = self.i2c.launched(sent_byte(tx));
    }

    fn act(&mut self, action: Option<Action>) {
        match action {
            None => {}
            Some(Action::Drop) => self.frame = self.frame.sending(None),
            Some(Action::Write(a, v)) => {
                *self = self.written(a, v);
                self.i2c = self.i2c.written(self.quiet);
            }
            Some(Action::Launch(a)) => self.launch(a),
            Some(Action::ReadBegan(a)) => *self = self.noted(a),
        }
    }

    fn report(&mut self, before: Levels, after: Levels) {
        if self.frame.selected {
            self.i2c = self.i2c.abort();
            return;
        }
        self.tell(!self.quiet && self.i2c.consumes_conversion(before, after));
        let sent = sent_byte(self.frame.tx);
        let step = self.i2c.step(before, after, self.quiet, sent);
        self.i2c = step.state;
        self.act(step.action);
    }

    fn select(&mut self, selected: bool) {
        if self.frame.changes(selected) {
            self.i2c = self.i2c.abort();
            self.frame = self.frame.select(selected);
        }
    }

    // The output at an edge.
    fn shift(&mut self, at: Clocked) {
        match self.frame.shifts(at, self.four_wire()) {
            Shift::Stay => {}
            Shift::Fetch(a) => self.frame = self.frame.shifted(self.fetched(a)),
            Shift::Next => self.frame = self.frame.shifted(self.frame.tx),
        }
    }

    // A bit is taken.
    fn take(&mut self, mosi: bool) {
        if let Some(address) = self.frame.first_bit() {
            *self = self.noted(address);
        }
        let taken = self.frame.take_bit(mosi, self.four_wire());
        self.frame = taken.frame;
        if let Some((address, value)) = taken.write {
            *self = self.written(address, value);
        }
        self.shift(Clocked::Rise);
    }

    fn rise(&mut self, mosi: bool) {
        if !self.frame.selected || self.quiet {
            return;
        }
        self.tell(self.frame.consumes_at_rise());
        if self.frame.turnaround {
            self.frame = self.frame.turned();
            self.shift(Clocked::Turnaround);
            return;
        }
        self.take(mosi);
    }

    fn fall(&mut self) {
        if self.frame.selected {
            self.tell(!self.quiet && self.frame.consumes_at_fall(self.four_wire()));
        }
        self.shift(Clocked::Fall);
    }

    fn event(&mut self, e: u8) {
        self.consumed = false;
        self.viewed = NO_VIEW;
        match e {
            0x00..=0x0f => self.report(levels(e, 3, 2), levels(e, 1, 0)),
            0x10 => self.select(false),
            0x11 => self.select(true),
            0x20 => self.rise(false),
            0x21 => self.rise(true),
            0x30 => self.fall(),
            0x40 => self.quiet = false,
            0x60 => *self = start(FOUR_WIRES),
            0x61 => *self = start(THREE_WIRES),
            0x80..=0xff => self.viewed = self.fetched(e % 128),
            _ => {}
        }
    }
}

impl Answers<1, 2> for Sensor {
    fn answer(&mut self, item: &[u8; 1]) -> [u8; 2] {
        self.event(item[0]);
        [self.pins(), self.viewed.unwrap_or(0)]
    }
}
