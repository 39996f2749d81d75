// Short views of the record, and a register replaced.
ghost use Rattle.std.specs.Prelude.{◌≡◌};
ghost use Rattle.sensor.specs.Record as Rec;
ghost use Rattle.registers.specs.Map as Map;

use crate::types::Sensor;
use i2c::types::Levels;
use registers::access::Gate;
use registers::fields::{CONTROL, OPERATION, SPI4, WAKE_UP, has};

// The byte at an address; there is none from 3e on.
pub fn byte_at(registers: [u8; 62], address: u8) -> u8
    ensures { result ≡ Map.at registers address }
{
    registers.get(usize::from(address)).copied().unwrap_or(0)
}

impl Sensor {
    // A register keeps a value; there is none from 3e on (by a bound: with `get_mut` the proof did not close).
    pub fn put(mut self, address: u8, value: u8) -> Sensor
        ensures { result ≡ Rec.put self address value }
    {
        if address < 62 {
            self.registers[usize::from(address)] = value;
        }
        self
    }

    // The levels after the last accepted pin report.
    pub fn lines(self) -> Levels
        ensures { result ≡ self.kept.lines }
    {
        self.kept.lines
    }

    // The levels that the next pin report must begin with.
    pub fn with_lines(mut self, lines: Levels) -> Sensor
        ensures { result ≡ Rec.with_lines self lines }
    {
        self.kept.lines = lines;
        self
    }

    #[tactic(auto, unfolding(crate::specs::Record::away))]
    pub fn is_off(self) -> bool
        ensures { result ≡ Rec.is_off self }
    {
        self.outage.is_some()
    }

    // This and the next two name one wait each; one function would take the wait's name and match it back to the field.
    #[tactic(auto, unfolding(deadlines::specs::Deadlines::is_set))]
    pub fn serial_not_ready(self) -> bool
        ensures { result ≡ Rec.serial_not_ready self }
    {
        self.deadlines.serial_ready.is_some()
    }

    #[tactic(auto, unfolding(deadlines::specs::Deadlines::is_set))]
    pub fn is_quiet(self) -> bool
        ensures { result ≡ Rec.is_quiet self }
    {
        self.deadlines.quiet.is_some()
    }

    #[tactic(auto, unfolding(deadlines::specs::Deadlines::is_set))]
    pub fn is_copying(self) -> bool
        ensures { result ≡ Rec.is_copying self }
    {
        self.deadlines.image.is_some()
    }

    #[tactic(auto, unfolding(crate::specs::Record::runs))]
    pub fn is_writing(self) -> bool
        ensures { result ≡ Rec.is_writing self }
    {
        self.writing.is_some()
    }

    // What a read or a write of a register meets.
    pub fn gate(self) -> Gate
        ensures { result ≡ Rec.gate self }
    {
        Gate {
            control: self.registers[CONTROL],
            quiet: self.is_quiet(),
            copying: self.is_copying(),
            asleep: self.sampling.asleep,
        }
    }

    // Automatic mode.
    pub fn automatic(self) -> bool
        ensures { result ≡ Rec.automatic self }
    {
        has(self.registers[OPERATION], WAKE_UP)
    }

    pub fn four_wire(self) -> bool
        ensures { result ≡ Rec.four_wire self }
    {
        has(self.registers[OPERATION], SPI4)
    }
}
