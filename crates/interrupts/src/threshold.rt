// One criterion, high-g or low-g.
ghost use Rattle.std.specs.Prelude.{◌≡◌, ◌%◌};
ghost use Rattle.interrupts.specs.Criteria.{enabled, mode, raised, active, observe, ticked, restarted, cleared, counted_down};

use registers::fields::{CRITERIA, ENABLE_HG, ENABLE_LG, counter_hg, counter_lg, has};

// The state of a criterion, high-g if HIGH and else low-g, with its working duration, which the alert shortens.
#[derive(Clone, Copy, Debug, Default, PartialEq, Eq)]
pub struct Threshold<const HIGH: bool> {
    pub axes: [bool; 3],
    pub count: u16,
    pub level: bool,
    pub latched: bool,
    pub duration: u8,
}

pub type LowG = Threshold<false>;

pub type HighG = Threshold<true>;

impl<const HIGH: bool> Threshold<HIGH> {
    // Whether the criterion is enabled.
    pub(crate) fn enabled(criteria: u8) -> bool
        ensures { result ≡ enabled HIGH criteria }
    {
        has(criteria, if HIGH { ENABLE_HG } else { ENABLE_LG })
    }

    // By how much its count falls.
    fn mode(criteria: u8) -> u8
        ensures { result ≡ mode HIGH criteria }
    {
        if HIGH {
            counter_hg(criteria)
        } else {
            counter_lg(criteria)
        }
    }

    // An axis after a code: what neither sets nor clears it leaves it.
    #[tactic(auto, unfolding(crate::specs::Criteria::sets, crate::specs::Criteria::clears, crate::specs::Criteria::raised))]
    fn raised(code: i16, threshold: u8, hysteresis: u8, old: bool) -> bool
        ensures { result ≡ raised HIGH code threshold hysteresis old }
    {
        let m = u32::from(code.unsigned_abs()) * 255;
        let t = u32::from(threshold) * 512;
        let h = u32::from(hysteresis) * 16384;
        let (sets, clears) = if HIGH {
            (t <= m, m + h < t)
        } else {
            (m <= t, t + h < m)
        };
        sets || !clears && old
    }

    // High-g needs one axis, low-g all.
    #[tactic(auto, unfolding(crate::specs::Criteria::active))]
    pub(crate) fn active(self) -> bool
        ensures { result ≡ active HIGH self.entry.axes }
    {
        if HIGH {
            self.axes.iter().any(|met| *met)
        } else {
            self.axes.iter().all(|met| *met)
        }
    }

    // Acquisition starts anew: level and latch stay.
    pub(crate) fn restarted(self) -> Self
        ensures { result ≡ restarted self.entry }
    {
        Threshold {
            axes: [false; 3],
            count: 0,
            ..self
        }
    }

    // reset_INT: the axes stay.
    pub(crate) fn cleared(self) -> Self
        ensures { result ≡ cleared self.entry }
    {
        Threshold {
            count: 0,
            level: false,
            latched: false,
            ..self
        }
    }

    // A code on an axis.
    #[tactic(auto, unfolding(crate::specs::Criteria::observe))]
    pub(crate) fn observe(mut self, axis: u8, code: i16, threshold: u8, hysteresis: u8) -> Self
        ensures { result ≡ observe self.entry (axis % 3) code threshold hysteresis HIGH }
    {
        let axis = usize::from(axis % 3);
        self.axes[axis] = Self::raised(code, threshold, hysteresis, self.axes[axis]);
        self.level = self.active() && self.level;
        self
    }

    // The count after a millisecond in which the criterion is not met: it falls by the mode, to 0 at mode 0.
    fn counted_down(self, criteria: u8) -> u16
        ensures { result ≡ counted_down self.entry.count (mode HIGH criteria) }
    {
        match Self::mode(criteria) {
            0 => 0,
            mode => self.count.saturating_sub(u16::from(mode)),
        }
    }

    // A millisecond, and whether it fired: the raised count exceeds the duration.
    #[tactic(auto, unfolding(crate::specs::Criteria::fires, crate::specs::Criteria::counted))]
    pub(crate) fn tick(self, registers: [u8; 62]) -> (Self, bool)
        ensures { result ≡ ticked self.entry HIGH registers }
    {
        let criteria = registers[CRITERIA];
        let enabled = Self::enabled(criteria);
        let met = self.active();
        let fired = enabled && met && u16::from(self.duration) <= self.count;
        let count = if fired || !enabled {
            0
        } else if met {
            self.count + 1
        } else {
            self.counted_down(criteria)
        };
        let threshold = Threshold {
            count,
            level: enabled && (fired || self.level),
            latched: fired || self.latched,
            ..self
        };
        (threshold, fired)
    }
}
