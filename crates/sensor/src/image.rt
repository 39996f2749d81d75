// The stored image, the working image, and a sensor at its start.
ghost use Rattle.std.specs.Prelude.{◌≡◌, ◌-◌, if◌then◌else◌, Some, None};
ghost use Rattle.registers.specs.Access as A;
ghost use Rattle.sensor.specs.Image as Im;

use crate::types::{Kept, Sensor, StoredWrite};
use analog::types::{Acceleration, Analog};
use deadlines::Deadlines;
use filter::Filter;
use i2c::types::{Levels, State};
use interrupts::Interrupts;
use reads::Reads;
use registers::access::stored;
use registers::fields::{CHIP_ID, MEASUREMENT, OPERATION, SHADOW_DIS, VERSION, bandwidth, has};
use sampling::types::{Input, Sampling};
use spi::types::Frame;
use time::{Clock, Duration, Time};

// The place of a stored byte in the image; there is none at another address.
#[tactic(auto, unfolding(registers::specs::Access::stored))]
fn place(address: u8) -> Option<usize>
    ensures { result ≡ if A.stored address then Some (address - 0x2b) else None }
{
    stored(address).then(|| usize::from(address - 0x2b))
}

#[tactic(auto, unfolding(crate::specs::Image::cell_byte, registers::specs::Access::stored))]
pub fn cell_byte(image: [u8; 19], address: u8) -> u8
    ensures { result ≡ Im.cell_byte image address }
{
    match place(address) {
        Some(i) => image[i],
        None => 0,
    }
}

#[tactic(auto, unfolding(crate::specs::Image::with_cell, registers::specs::Access::stored))]
pub fn with_cell(mut image: [u8; 19], address: u8, value: u8) -> [u8; 19]
    ensures { result ≡ Im.with_cell image address value }
{
    if let Some(i) = place(address) {
        image[i] = value;
    }
    image
}

impl StoredWrite {
    // The byte of its cell at a moment: torn until the write has ended.
    pub fn byte_at(self, image: [u8; 19], now: Time) -> u8
        ensures { result ≡ Im.byte_at self image now }
    {
        let old = cell_byte(image, self.address);
        let cell = 0x20000 + u32::from(self.address);
        self.cycle.byte(old, self.value, cell, now)
    }
}

// The image in the registers 0b..1d.
fn image_copied(mut registers: [u8; 62], image: [u8; 19]) -> [u8; 62]
    ensures { result ≡ Im.image_copied registers image }
{
    registers[0x0b..0x1e].copy_from_slice(&image);
    registers
}

#[tactic(auto, unfolding(crate::specs::Image::shadowing))]
pub fn shadowing(reads: Reads, byte: u8) -> Reads
    ensures { result ≡ Im.shadowing reads byte }
{
    if has(byte, SHADOW_DIS) {
        return reads.release();
    }
    reads
}

pub fn reset_registers() -> [u8; 62]
    ensures { result ≡ Im.reset_registers }
{
    let mut r = [0; 62];
    r[CHIP_ID] = 2;
    r[VERSION] = 0x10;
    r
}

// The stock image. A function and no constant: its contract names the image of the definition.
pub fn stock() -> [u8; 19]
    ensures { result ≡ Im.stock }
{
    [
        3, 20, 150, 160, 150, 0, 0, 162, 13, 14, 128, 0, 0, 0, 0, 128, 128, 128, 0,
    ]
}

fn fresh_sampling(now: Time) -> Sampling
    ensures { result ≡ Im.fresh_sampling now }
{
    Sampling {
        filter: Filter::new(6),
        filtered: [0; 3],
        means: [false; 3],
        clock: Clock::new(now),
        analog: Analog::at_rest(now),
        asleep: false,
        auto_cycles: 0,
        test: None,
        data_ready: false,
    }
}

fn acquiring(now: Time) -> Deadlines
    ensures { result ≡ Im.acquiring now }
{
    let length = control::lengths::acquisition_delay(Duration::from_millis(3));
    Deadlines {
        wake: Some(now.plus(length)),
        ..Deadlines::never()
    }
}

// What a start keeps: 1 g on z, 20 degrees, both lines high.
fn new_kept() -> Kept
    ensures { result ≡ Im.new_kept }
{
    let input = Input {
        acceleration: Acceleration {
            x: 0,
            y: 0,
            z: 1000000,
        },
        temperature_millicelsius: 20000,
    };
    let lines = Levels {
        scl: true,
        sda: true,
    };
    Kept { input, lines }
}

fn blank(now: Time, image: [u8; 19], kept: Kept) -> Sensor
    ensures { result ≡ Im.blank now image kept }
{
    Sensor {
        registers: reset_registers(),
        nonvolatile: image,
        frame: Frame::fresh(false),
        i2c: State::new(),
        reads: Reads::new(),
        kept,
        sampling: fresh_sampling(now),
        deadlines: acquiring(now),
        writing: None,
        interrupts: Interrupts::new(),
        outage: None,
    }
}

// A sensor that returns from 0 mV.
pub fn powered(now: Time, image: [u8; 19], kept: Kept) -> Sensor
    ensures { result ≡ Im.powered now image kept }
{
    let ready = now.plus(Duration::from_millis(3));
    let mut s = blank(now, image, kept).copy_image();
    s.deadlines.serial_ready = Some(ready);
    s
}

impl Sensor {
    // The stored bytes at a moment.
    #[tactic(auto, unfolding(crate::specs::Image::image_at))]
    pub fn nonvolatile(self, now: Time) -> [u8; 19]
        ensures { result ≡ Im.nonvolatile self now }
    {
        let image = self.nonvolatile;
        match self.writing {
            Some(w) => with_cell(image, w.address, w.byte_at(image, now)),
            None => image,
        }
    }

    // The registers are these; what follows from them is set.
    fn configure(&mut self, registers: [u8; 62])
        ensures { self.new ≡ Im.configured self.old registers }
    {
        self.registers = registers;
        self.reads = shadowing(self.reads, registers[OPERATION]);
        self.sampling.filter = self
            .sampling
            .filter
            .select(bandwidth(registers[MEASUREMENT]));
        self.interrupts = self.interrupts.configure(registers);
    }

    pub fn copy_image(mut self) -> Sensor
        ensures { result ≡ Im.copy_image self }
    {
        let registers = image_copied(self.registers, self.nonvolatile);
        self.configure(registers);
        self
    }

    // A start with these stored bytes. The blank sensor is configured where it stands: by `copy_image` a start took twice the instructions.
    pub fn from_nonvolatile(now: Time, image: [u8; 19]) -> Sensor
        ensures { result ≡ Im.from_nonvolatile now image }
    {
        let mut s = blank(now, image, new_kept());
        let registers = image_copied(s.registers, image);
        s.configure(registers);
        s
    }

    pub fn power_on(self, now: Time) -> Sensor
        ensures { result ≡ Im.power_on self now }
    {
        powered(now, self.nonvolatile, self.kept)
    }
}
