// A millisecond: high-g and low-g count, and the alert shortens their durations.
ghost use Rattle.std.specs.Prelude.{◌≡◌};
ghost use Rattle.interrupts.specs.State.{shorten, lapsed, ended, millisecond};

use crate::Interrupts;

impl Interrupts {
    // Under alert both durations fall by one.
    #[tactic(auto, unfolding(crate::specs::State::shorten))]
    fn shorten(mut self) -> Interrupts
        ensures { result ≡ shorten self }
    {
        if self.alert {
            self.low_g.duration = self.low_g.duration.saturating_sub(1);
            self.high_g.duration = self.high_g.duration.saturating_sub(1);
        }
        self
    }

    // The alert's durations have fallen to 0.
    #[tactic(auto, unfolding(crate::specs::State::lapsed))]
    fn lapsed(self) -> bool
        ensures { result ≡ lapsed self }
    {
        self.alert && self.low_g.duration == 0 && self.high_g.duration == 0
    }

    // Both criteria count; one that fires, or an alert that is over, ends the alert.
    #[tactic(auto, unfolding(crate::specs::State::configure, crate::specs::State::ended))]
    fn ended(self, registers: [u8; 62]) -> Interrupts
        ensures { result ≡ ended self registers }
    {
        let (low_g, low_fired) = self.low_g.tick(registers);
        let (high_g, high_fired) = self.high_g.tick(registers);
        let ticked = Interrupts {
            low_g,
            high_g,
            ..self
        };
        if low_fired || high_fired || self.lapsed() {
            let calm = Interrupts {
                alert: false,
                ..ticked
            };
            return calm.configure(registers);
        }
        ticked
    }

    // A millisecond passes.
    #[tactic(auto, unfolding(crate::specs::State::millisecond))]
    pub fn millisecond(self, registers: [u8; 62]) -> Interrupts
        ensures { result ≡ millisecond self registers }
    {
        self.shorten().ended(registers)
    }
}
