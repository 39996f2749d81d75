// Register views and reads.
ghost use Rattle.std.specs.Prelude.{◌≡◌, false, get_or};
ghost use Rattle.reads.specs.declared.Prepared.{Prepared};
ghost use Rattle.sensor.specs.RegisterReads as B;

use crate::record::byte_at;
use crate::types::{Fetched, Mark, Sensor, Viewed};
use reads::{Prepared, axis_of, is_acceleration, without_new_data};
use registers::access::withheld;
use registers::fields::{OPERATION, SHADOW_DIS, STATUS, has};

// The address of the low byte of an acceleration.
fn low_address(address: u8) -> u8
    ensures { result ≡ B.low_address address }
{
    2 + axis_of(address) * 2
}

// Whether the value of an axis is a mean. The axis is the number that `axis_of` gives; for any but the three the answer is no.
fn is_mean(means: [bool; 3], axis: u8) -> bool
    ensures { result ≡ get_or means axis false }
{
    means.get(usize::from(axis)).copied().unwrap_or(false)
}

impl Sensor {
    #[tactic(auto, unfolding(crate::specs::RegisterReads::shown))]
    fn shown(self, address: u8) -> u8
        ensures { result ≡ B.shown self address }
    {
        if usize::from(address) == STATUS {
            return self.registers[STATUS] | self.interrupts.status();
        }
        byte_at(self.registers, address)
    }

    // The byte that a register shows, or none where it is withheld.
    #[tactic(auto, unfolding(crate::specs::RegisterReads::peek))]
    pub fn peek(self, address: u8) -> Option<u8>
        ensures { result ≡ B.peek self address }
    {
        (!withheld(address, self.gate())).then(|| self.shown(address))
    }

    // The mark of an acceleration's register.
    #[tactic(auto, unfolding(crate::specs::RegisterReads::mark))]
    fn mark(self, address: u8) -> Option<Mark>
        ensures { result ≡ B.mark self address }
    {
        if !is_acceleration(address) {
            return None;
        }
        if is_mean(self.sampling.means, axis_of(address)) {
            return Some(Mark::Mean);
        }
        Some(Mark::Single)
    }

    // What a view answers: the byte, and the mark of an acceleration.
    #[tactic(auto, unfolding(crate::specs::RegisterReads::viewed_as))]
    pub fn viewed(self, address: u8) -> Option<Viewed>
        ensures { result ≡ B.viewed self address }
    {
        let byte = self.peek(address)?;
        Some(Viewed {
            byte,
            mark: self.mark(address),
        })
    }

    fn prepared(self, address: u8, viewed: u8) -> Prepared
        ensures { result ≡ B.prepared self address viewed }
    {
        let low = low_address(address);
        self.reads.prepare(
            address,
            viewed,
            [
                byte_at(self.registers, low),
                byte_at(self.registers, low + 1),
            ],
            !has(self.registers[OPERATION], SHADOW_DIS),
        )
    }

    #[tactic(auto, unfolding(crate::specs::RegisterReads::fetched))]
    pub fn prepare_read(mut self, address: u8) -> Fetched
        ensures { result ≡ B.prepare_read self address }
    {
        let Some(byte) = self.peek(address) else {
            self.reads = self.reads.drop();
            return Fetched {
                sensor: self,
                sent: None,
            };
        };
        let p = self.prepared(address, byte);
        self.reads = p.reads;
        Fetched {
            sensor: self,
            sent: Some(p.byte),
        }
    }

    fn acceleration_read(mut self, address: u8, sent: u8) -> Sensor
        ensures { result ≡ B.acceleration_read self address sent }
    {
        let low = low_address(address);
        let byte = without_new_data(byte_at(self.registers, low));
        self.reads = self.reads.read_began(address, sent);
        self.sampling.data_ready = false;
        self.put(low, byte)
    }

    #[tactic(auto, unfolding(crate::specs::RegisterReads::counts_as_read))]
    fn counts_as_read(self, address: u8) -> bool
        ensures { result ≡ B.counts_as_read self address }
    {
        !self.sampling.asleep && !self.is_quiet() && is_acceleration(address)
    }

    // The first bit of a register's byte was taken.
    #[tactic(auto, unfolding(crate::specs::RegisterReads::byte_read))]
    pub fn read_began(self, address: u8) -> Sensor
        ensures { result ≡ B.read_began self address }
    {
        match self.frame.tx {
            Some(sent) if self.counts_as_read(address) => self.acceleration_read(address, sent),
            _ => self,
        }
    }
}
