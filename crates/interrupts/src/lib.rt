// The interrupt criteria of the sensor: high-g, low-g and any motion, with the alert.
#![tactic(auto)]

mod alert;
pub mod motion;
pub mod observations;
mod pin;
pub mod threshold;

ghost use Rattle.std.specs.Prelude.{◌≡◌};
ghost use Rattle.interrupts.specs.State.{new, configure, restart_acquisition, reset, axis};

use crate::motion::Motion;
use crate::observations::Observations;
use crate::threshold::{HighG, LowG};
use registers::fields::{HG_DUR, HG_THRES, HYSTERESIS, LG_DUR, LG_THRES, hg_hyst, lg_hyst};

// The two criteria; the last three observations; the divider of scans; what any motion has come to; and the alert.
#[derive(Clone, Copy, Debug, Default, PartialEq, Eq)]
pub struct Interrupts {
    pub low_g: LowG,
    pub high_g: HighG,
    pub observations: Observations,
    pub divider: u8,
    pub motion: Motion,
    pub alert: bool,
}

impl Interrupts {
    // All zero or false.
    pub fn new() -> Interrupts
        ensures { result ≡ new }
    {
        Interrupts::default()
    }

    // LG_dur and HG_dur become the working durations, but under alert.
    #[tactic(auto, unfolding(crate::specs::State::configure))]
    pub fn configure(mut self, registers: [u8; 62]) -> Interrupts
        ensures { result ≡ configure self registers }
    {
        if self.alert {
            return self;
        }
        self.low_g.duration = registers[LG_DUR];
        self.high_g.duration = registers[HG_DUR];
        self
    }

    // Acquisition starts anew.
    #[tactic(auto, unfolding(crate::specs::State::restart_acquisition))]
    pub fn restart_acquisition(self) -> Interrupts
        ensures { result ≡ restart_acquisition self }
    {
        Interrupts {
            low_g: self.low_g.restarted(),
            high_g: self.high_g.restarted(),
            observations: self.observations.restarted(),
            divider: 0,
            motion: self.motion.restarted(),
            ..self
        }
    }

    // reset_INT: counts, levels, latches and the alert are cleared.
    #[tactic(auto, unfolding(crate::specs::State::configure, crate::specs::State::reset))]
    pub fn reset(self, registers: [u8; 62]) -> Interrupts
        ensures { result ≡ reset self registers }
    {
        let cleared = Interrupts {
            low_g: self.low_g.cleared(),
            high_g: self.high_g.cleared(),
            motion: self.motion.cleared(),
            alert: false,
            ..self
        };
        cleared.configure(registers)
    }

    // A code on an axis, whose number is taken modulo 3: a type of three values would narrow what a caller may hand in.
    #[tactic(auto, unfolding(crate::specs::State::axis))]
    pub fn axis(self, number: u8, code: i16, registers: [u8; 62]) -> Interrupts
        ensures { result ≡ axis self number code registers }
    {
        let hysteresis = registers[HYSTERESIS];
        let low = lg_hyst(hysteresis);
        let high = hg_hyst(hysteresis);
        Interrupts {
            low_g: self.low_g.observe(number, code, registers[LG_THRES], low),
            high_g: self.high_g.observe(number, code, registers[HG_THRES], high),
            ..self
        }
    }
}
