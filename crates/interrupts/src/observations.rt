// The last three observations, with which any motion compares a new one.
ghost use Rattle.std.specs.Prelude.{◌≡◌};
ghost use Rattle.interrupts.specs.Observations.{compared_with, added, restarted};

// The codes of the three axes at each of the last three observations, in a ring; the place of the next, taken modulo 3; and how
// many there were since acquisition started, to 4.
#[derive(Clone, Copy, Debug, Default, PartialEq, Eq)]
pub struct Observations {
    pub codes: [[i16; 3]; 3],
    pub next: u8,
    pub count: u8,
}

impl Observations {
    // What the next observation is compared with: the one three earlier, none while fewer than three were taken.
    #[tactic(auto, unfolding(crate::specs::Observations::compared_with))]
    pub(crate) fn compared_with(self) -> Option<[i16; 3]>
        ensures { result ≡ compared_with self }
    {
        if self.count < 3 {
            return None;
        }
        Some(self.codes[usize::from(self.next % 3)])
    }

    // A scan's codes are the next observation, in the place of the one three earlier.
    pub(crate) fn added(mut self, codes: [i16; 3]) -> Observations
        ensures { result ≡ added self codes }
    {
        let place = self.next % 3;
        self.codes[usize::from(place)] = codes;
        Observations {
            next: (place + 1) % 3,
            count: self.count.saturating_add(1).min(4),
            ..self
        }
    }

    // Acquisition starts anew: none is counted, and the codes and the next place stay.
    pub(crate) fn restarted(self) -> Observations
        ensures { result ≡ restarted self }
    {
        Observations { count: 0, ..self }
    }
}
