// What moves the low-pass stage outside the phases.
ghost use Rattle.std.specs.Prelude.{◌≡◌};
ghost use Rattle.sampling.specs.Phase as P;
ghost use Rattle.sampling.specs.Stage as S;

use crate::types::{Input, Sampling};
use analog::types::{Acceleration, Analog};
use time::Time;

impl Sampling {
    fn with_analog(self, analog: Analog) -> Sampling
        ensures { result ≡ P.with_analog self analog }
    {
        Sampling { analog, ..self }
    }

    pub fn rest(self, now: Time) -> Sampling
        ensures { result ≡ S.rested self now }
    {
        self.with_analog(Analog::at_rest(now))
    }

    pub fn resume(self, now: Time) -> Sampling
        ensures { result ≡ S.resumed self now }
    {
        self.with_analog(self.analog.resume(now))
    }

    #[tactic(auto, unfolding(crate::specs::Stage::hold))]
    pub fn hold(self, now: Time, input: Input) -> Sampling
        ensures { result ≡ S.hold self now input }
    {
        if self.asleep {
            return self;
        }
        self.with_analog(self.analog.hold(now, input.acceleration))
    }

    #[tactic(auto, unfolding(crate::specs::Stage::turned))]
    pub fn turn(self, now: Time, old: Acceleration, new: Acceleration) -> Sampling
        ensures { result ≡ S.turned self now old new }
    {
        if self.asleep {
            return self;
        }
        self.with_analog(self.analog.turn(now, old, new))
    }
}
