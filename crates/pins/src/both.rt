// A sensor that is all registers: they are read and written by the serial pins at one moment, and nothing samples.
use i2c::types::State;
use registers::access::{Gate, ignores, stored, withheld};
use registers::fields::{
    ACC_LSB, ACC_MSB, CHIP_ID, CONTROL, CRITERIA, HG_DUR, HG_THRES, LG_DUR, LG_THRES, MEASUREMENT,
    NEW_DATA, OFFSET_MSB, OPERATION, SHADOW_DIS, SOFT_RESET, SPI4, TEMP, VERSION, has,
};
use spi::types::{Drive, Frame};

// The bytes of register 15 for four and for three wires, both without shadowing.
pub(crate) const FOUR_WIRES: u8 = 1 << SPI4 | 1 << SHADOW_DIS;

pub(crate) const THREE_WIRES: u8 = 1 << SHADOW_DIS;

// What an event answers that views no register: the byte 0, as if one of 0 had been viewed. None is a view that is withheld.
pub(crate) const NO_VIEW: Option<u8> = Some(0);

// `operation` is the stored byte of register 15. `awake`: no soft reset since the start, so a sample is next. `consumed` and
// `viewed` are what the last event answers beside the pins.
#[derive(Clone, Copy)]
pub(crate) struct Sensor {
    pub(crate) i2c: State,
    pub(crate) frame: Frame,
    pub(crate) registers: [u8; 62],
    pub(crate) operation: u8,
    pub(crate) quiet: bool,
    pub(crate) awake: bool,
    pub(crate) consumed: bool,
    pub(crate) viewed: Option<u8>,
}

// The registers as after a soft reset: the stock image, but for register 15. 12 and 13 are the customer's and have no name. `sensor` has
// the image too, but this program stands on no crate above `i2c` and `spi`.
fn reloaded(operation: u8) -> [u8; 62] {
    let mut r = [0u8; 62];
    r[CHIP_ID] = 2;
    r[VERSION] = 0x10;
    r[CRITERIA] = 3;
    r[LG_THRES] = 20;
    r[LG_DUR] = 150;
    r[HG_THRES] = 160;
    r[HG_DUR] = 150;
    r[0x12] = 162;
    r[0x13] = 13;
    r[MEASUREMENT] = 14;
    r[OPERATION] = operation;
    r[OFFSET_MSB] = 128;
    r[OFFSET_MSB + 1] = 128;
    r[OFFSET_MSB + 2] = 128;
    r
}

// The registers after a first sample of 341, -342 and 243 at 20 degrees.
fn sampled(operation: u8) -> [u8; 62] {
    let mut r = reloaded(operation);
    r[ACC_LSB] = 0x41;
    r[ACC_MSB] = 0x55;
    r[ACC_LSB + 2] = 0x81;
    r[ACC_MSB + 2] = 0xaa;
    r[ACC_LSB + 4] = 0xc1;
    r[ACC_MSB + 4] = 0x3c;
    r[TEMP] = 0x64;
    r
}

pub(crate) fn start(operation: u8) -> Sensor {
    Sensor {
        i2c: State::new(),
        frame: Frame::fresh(false),
        registers: sampled(operation),
        operation,
        quiet: false,
        awake: true,
        consumed: false,
        viewed: NO_VIEW,
    }
}

// The number of a drive: floating, low, high.
fn drive_number(d: Drive) -> u8 {
    match d {
        Drive::Floating => 0,
        Drive::Low => 1,
        Drive::High => 2,
    }
}

impl Sensor {
    pub(crate) fn four_wire(self) -> bool {
        has(self.registers[OPERATION], SPI4)
    }

    // What a read or a write of a register meets; no image is copied, and the sensor does not sleep.
    fn gate(self) -> Gate {
        Gate {
            control: self.registers[CONTROL],
            quiet: self.quiet,
            copying: false,
            asleep: false,
        }
    }

    // The byte of a register, or none where a read is withheld.
    pub(crate) fn fetched(self, address: u8) -> Option<u8> {
        if withheld(address, self.gate()) {
            return None;
        }
        self.registers.get(usize::from(address)).copied()
    }

    // The first bit of a register's byte is taken: new_data of its axis clears.
    pub(crate) fn noted(mut self, address: u8) -> Sensor {
        let register = usize::from(address);
        if self.frame.tx.is_some() && !self.quiet && (ACC_LSB..TEMP).contains(&register) {
            self.registers[register - register % 2] &= !(1 << NEW_DATA);
        }
        self
    }

    fn reset(self) -> Sensor {
        let frame = self.frame.sending(None).released();
        Sensor {
            i2c: State::new(),
            frame,
            registers: reloaded(self.operation),
            quiet: true,
            awake: false,
            viewed: NO_VIEW,
            ..self
        }
    }

    fn stored_at(mut self, address: u8, value: u8) -> Sensor {
        if let Some(register) = self.registers.get_mut(usize::from(address)) {
            *register = value;
        }
        self
    }

    // A write to a register. Of register 0a bit 7, reset_INT and soft_reset are not stored.
    pub(crate) fn written(self, address: u8, value: u8) -> Sensor {
        if ignores(address, value, self.gate()) || stored(address) {
            return self;
        }
        if usize::from(address) != CONTROL {
            return self.stored_at(address, value);
        }
        if has(value, SOFT_RESET) {
            return self.reset();
        }
        self.stored_at(address, value & 0x3d)
    }

    fn driven(self) -> Drive {
        if self.frame.selected && !self.quiet {
            self.frame.driven
        } else {
            Drive::Floating
        }
    }

    fn output(self) -> Drive {
        if self.four_wire() {
            self.driven()
        } else {
            Drive::Floating
        }
    }

    fn data_output(self) -> Drive {
        match (self.frame.selected, self.four_wire(), self.i2c.low) {
            (true, false, _) => self.driven(),
            (false, _, true) => Drive::Low,
            _ => Drive::Floating,
        }
    }

    // Both outputs, and what the last event told.
    pub(crate) fn pins(self) -> u8 {
        let told = u8::from(self.consumed) << 4 | u8::from(self.viewed.is_none()) << 5;
        told | drive_number(self.data_output()) << 2 | drive_number(self.output())
    }
}
