// What the interrupt state shows.
ghost use Rattle.std.specs.Prelude.{◌≡◌};
ghost use Rattle.interrupts.specs.Criteria.{enabled};
ghost use Rattle.interrupts.specs.Pin.{status, shown, motion_output, threshold_output, output, enables_motion, candidate, verifying_motion, verifying};

use crate::Interrupts;
use crate::threshold::Threshold;
use registers::fields::{ALERT, ANY_MOTION, CRITERIA, ENABLE_ADV_INT, LATCH_INT, OPERATION, has};

// The latch or the level.
fn shown(latch: bool, latched: bool, level: bool) -> bool
    ensures { result ≡ shown latch latched level }
{
    if latch { latched } else { level }
}

// Alert or any_motion is set.
#[tactic(auto, unfolding(crate::specs::Pin::enables_motion))]
fn enables_motion(criteria: u8) -> bool
    ensures { result ≡ enables_motion criteria }
{
    has(criteria, ALERT) || has(criteria, ANY_MOTION)
}

impl<const HIGH: bool> Threshold<HIGH> {
    // An enabled criterion shows its level or its latch.
    #[tactic(auto, unfolding(crate::specs::Pin::threshold_output))]
    fn output(self, criteria: u8, latch: bool) -> bool
        ensures { result ≡ threshold_output self.entry (enabled HIGH criteria) latch }
    {
        Self::enabled(criteria) && shown(latch, self.latched, self.level)
    }

    // An enabled criterion is met.
    #[tactic(auto, unfolding(crate::specs::Pin::candidate))]
    fn candidate(self, criteria: u8) -> bool
        ensures { result ≡ candidate self.entry HIGH (enabled HIGH criteria) }
    {
        Self::enabled(criteria) && self.active()
    }
}

impl Interrupts {
    // The bits of the status register that the interrupts have.
    pub fn status(self) -> u8
        ensures { result ≡ status self }
    {
        u8::from(self.alert) * 16
            + u8::from(self.low_g.latched) * 8
            + u8::from(self.high_g.latched) * 4
            + u8::from(self.low_g.level) * 2
            + u8::from(self.high_g.level)
    }

    // Motion shows.
    #[tactic(auto, unfolding(crate::specs::Pin::motion_output))]
    fn motion_output(self, registers: [u8; 62]) -> bool
        ensures { result ≡ motion_output self registers }
    {
        let criteria = registers[CRITERIA];
        let operation = registers[OPERATION];
        has(operation, ENABLE_ADV_INT)
            && has(criteria, ANY_MOTION)
            && !has(criteria, ALERT)
            && shown(
                has(operation, LATCH_INT),
                self.motion.latched,
                self.motion.level,
            )
    }

    // The interrupt pin.
    #[tactic(auto, unfolding(crate::specs::Pin::output))]
    pub fn output(self, registers: [u8; 62]) -> bool
        ensures { result ≡ output self registers }
    {
        let criteria = registers[CRITERIA];
        let latch = has(registers[OPERATION], LATCH_INT);
        self.low_g.output(criteria, latch)
            || self.high_g.output(criteria, latch)
            || self.motion_output(registers)
    }

    // Motion is being verified.
    #[tactic(auto, unfolding(crate::specs::Pin::verifying_motion))]
    fn verifying_motion(self, registers: [u8; 62]) -> bool
        ensures { result ≡ verifying_motion self registers }
    {
        has(registers[OPERATION], ENABLE_ADV_INT)
            && enables_motion(registers[CRITERIA])
            && (self.observations.count < 4 || self.motion.active)
    }

    // A candidate is being verified, which keeps the sensor awake.
    #[tactic(auto, unfolding(crate::specs::Pin::verifying))]
    pub fn verifying(self, registers: [u8; 62]) -> bool
        ensures { result ≡ verifying self registers }
    {
        let criteria = registers[CRITERIA];
        self.low_g.candidate(criteria)
            || self.high_g.candidate(criteria)
            || self.verifying_motion(registers)
            || self.alert
    }
}
