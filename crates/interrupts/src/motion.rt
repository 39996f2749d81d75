// Any motion: an observation is compared with the one three earlier.
ghost use Rattle.std.specs.Prelude.{◌≡◌};
ghost use Rattle.interrupts.specs.State.{moved, moves, record_codes, motion_counted, motion_restarted, motion_cleared, count_motion, qualifies, alerts, detects, decide, observation, cycle};

use crate::Interrupts;
use registers::fields::{
    ALERT, ANY_MOTION, ANY_MOTION_THRES, CRITERIA, ENABLE_ADV_INT, HYSTERESIS, OPERATION,
    any_motion_dur, has,
};

// How many observations in a row have moved, and how many have not; whether the last one has; and what shows of it.
#[derive(Clone, Copy, Debug, Default, PartialEq, Eq)]
pub struct Motion {
    pub set: u8,
    pub clear: u8,
    pub active: bool,
    pub level: bool,
    pub latched: bool,
}

// A code differs enough from an earlier one.
#[tactic(auto, unfolding(crate::specs::State::moved))]
fn moved(new: i16, old: i16, threshold: u8) -> bool
    ensures { result ≡ moved new old threshold }
{
    u16::from(threshold) * 4 <= new.abs_diff(old)
}

// One axis at least has moved.
#[tactic(auto, unfolding(crate::specs::State::moves))]
fn moves(earlier: [i16; 3], codes: [i16; 3], threshold: u8) -> bool
    ensures { result ≡ moves earlier codes threshold }
{
    codes
        .iter()
        .zip(earlier.iter())
        .any(|(new, old)| moved(*new, *old, threshold))
}

impl Motion {
    // Enough observations in a row have moved, and enable_adv_INT is set.
    #[tactic(auto, unfolding(crate::specs::State::qualifies))]
    fn qualifies(self, need: u8, registers: [u8; 62]) -> bool
        ensures { result ≡ qualifies self.set need registers }
    {
        need <= self.set && has(registers[OPERATION], ENABLE_ADV_INT)
    }

    // Motion begins the alert.
    #[tactic(auto, unfolding(crate::specs::State::alerts))]
    fn alerts(self, need: u8, registers: [u8; 62]) -> bool
        ensures { result ≡ alerts self.set need registers }
    {
        self.qualifies(need, registers) && has(registers[CRITERIA], ALERT)
    }

    // Motion is an interrupt of its own.
    #[tactic(auto, unfolding(crate::specs::State::detects))]
    fn detects(self, need: u8, registers: [u8; 62]) -> bool
        ensures { result ≡ detects self.set need registers }
    {
        let criteria = registers[CRITERIA];
        self.qualifies(need, registers) && !has(criteria, ALERT) && has(criteria, ANY_MOTION)
    }

    // An observation has moved, or has not.
    #[tactic(auto, unfolding(crate::specs::State::motion_counted))]
    fn counted(self, active: bool) -> Motion
        ensures { result ≡ motion_counted self active }
    {
        let (set, clear) = if active {
            (self.set.saturating_add(1), 0)
        } else {
            (0, self.clear.saturating_add(1))
        };
        Motion {
            set,
            clear,
            active,
            ..self
        }
    }

    // Acquisition starts anew: level and latch stay.
    pub(crate) fn restarted(self) -> Motion
        ensures { result ≡ motion_restarted self }
    {
        Motion {
            set: 0,
            clear: 0,
            active: false,
            ..self
        }
    }

    // reset_INT: whether the last observation moved stays.
    pub(crate) fn cleared(self) -> Motion
        ensures { result ≡ motion_cleared self }
    {
        Motion {
            active: self.active,
            ..Motion::default()
        }
    }
}

impl Interrupts {
    // An observation is kept, and cycles are counted anew.
    fn record_codes(self, codes: [i16; 3]) -> Interrupts
        ensures { result ≡ record_codes self codes }
    {
        Interrupts {
            observations: self.observations.added(codes),
            divider: 0,
            ..self
        }
    }

    // How many in a row have moved, or have not.
    #[tactic(auto, unfolding(crate::specs::State::motion_counted, crate::specs::State::count_motion))]
    fn count_motion(self, active: bool) -> Interrupts
        ensures { result ≡ count_motion self active }
    {
        Interrupts {
            motion: self.motion.counted(active),
            ..self
        }
    }

    // What enough observations in a row do: alert, interrupt, end of the level.
    #[tactic(auto, unfolding(crate::specs::State::decide))]
    fn decide(self, need: u8, registers: [u8; 62]) -> Interrupts
        ensures { result ≡ decide self need registers }
    {
        let motion = self.motion;
        let detected = motion.detects(need, registers);
        Interrupts {
            motion: Motion {
                level: detected || motion.clear < need && motion.level,
                latched: detected || motion.latched,
                ..motion
            },
            alert: motion.alerts(need, registers) || self.alert,
            ..self
        }
    }

    // An observation is compared only from the fourth on.
    #[tactic(auto, unfolding(crate::specs::Observations::compared_with, crate::specs::State::observation))]
    fn observation(self, codes: [i16; 3], registers: [u8; 62], need: u8) -> Interrupts
        ensures { result ≡ observation self codes registers need }
    {
        let recorded = self.record_codes(codes);
        match self.observations.compared_with() {
            Some(earlier) => {
                let active = moves(earlier, codes, registers[ANY_MOTION_THRES]);
                recorded.count_motion(active).decide(need, registers)
            }
            None => recorded,
        }
    }

    // A cycle of codes on the three axes: one in `window` is an observation. `needs` has the number in a row by any_motion_dur.
    #[tactic(auto, unfolding(crate::specs::State::cycle))]
    pub fn cycle(
        self,
        codes: [i16; 3],
        window: u8,
        registers: [u8; 62],
        needs: [u8; 4],
    ) -> Interrupts
        ensures { result ≡ cycle self codes window registers needs }
    {
        if self.divider < window.saturating_sub(1) {
            return Interrupts {
                divider: self.divider + 1,
                ..self
            };
        }
        let need = needs[usize::from(any_motion_dur(registers[HYSTERESIS]))];
        self.observation(codes, registers, need)
    }
}
