// The sensor's deadlines: the earliest, one that has ended, and all of them shifted (bma150.rs).
#![tactic(auto)]

ghost use Rattle.std.specs.Prelude.{◌≡◌};
ghost use Rattle.deadlines.specs.Deadlines as D;

use time::{Duration, Time};

// What the sensor waits for, apart from its next sample and a stored write: for each the moment at which it is due, or none.
#[derive(Clone, Copy, Default, PartialEq, Eq)]
pub struct Deadlines {
    pub serial_ready: Option<Time>,
    pub wake: Option<Time>,
    pub pause: Option<Time>,
    pub quiet: Option<Time>,
    pub irq_hold: Option<Time>,
    pub image: Option<Time>,
}

// Whether a deadline is at this moment.
#[tactic(auto, unfolding(crate::specs::Deadlines::is_at))]
pub fn is_at(deadline: Option<Time>, now: Time) -> bool
    ensures { result ≡ D.is_at deadline now }
{
    deadline == Some(now)
}

// Whether it is at this moment or before it.
#[tactic(auto, unfolding(crate::specs::Deadlines::is_by))]
pub fn is_by(deadline: Option<Time>, now: Time) -> bool
    ensures { result ≡ D.is_by deadline now }
{
    deadline.is_some_and(|t| t <= now)
}

// The earlier of two.
#[tactic(auto, unfolding(crate::specs::Deadlines::sooner))]
pub fn sooner(one: Option<Time>, other: Option<Time>) -> Option<Time>
    ensures { result ≡ D.sooner one other }
{
    match (one, other) {
        (Some(t), Some(u)) => Some(t.min(u)),
        (None, _) => other,
        (_, None) => one,
    }
}

// None where it is at this moment, else itself.
#[tactic(auto, unfolding(crate::specs::Deadlines::unless_at, crate::specs::Deadlines::is_at))]
pub fn unless_at(deadline: Option<Time>, now: Time) -> Option<Time>
    ensures { result ≡ D.unless_at deadline now }
{
    deadline.filter(|t| *t != now)
}

// Later by a length, where it is set.
#[tactic(auto, unfolding(crate::specs::Deadlines::later))]
pub fn later(deadline: Option<Time>, by: Duration) -> Option<Time>
    ensures { result ≡ D.later deadline by }
{
    deadline.map(|t| t.plus(by))
}

impl Deadlines {
    // Nothing is due.
    pub fn never() -> Deadlines
        ensures { result ≡ D.never }
    {
        Deadlines::default()
    }

    // The earliest of these, of the next sample and of the end of a stored write. One after the other: as a `fold` over an array of them, which
    // is copied, each question for the next due took four times the instructions.
    pub fn earliest(self, sample: Option<Time>, write: Option<Time>) -> Option<Time>
        ensures { result ≡ D.earliest self sample write }
    {
        let mut first = sooner(write, self.image);
        first = sooner(self.irq_hold, first);
        first = sooner(self.quiet, first);
        first = sooner(self.pause, first);
        first = sooner(self.wake, first);
        first = sooner(sample, first);
        sooner(self.serial_ready, first)
    }

    // Each wait later by the length of a supply drop; the wake, which begins anew, as it is.
    pub fn shifted(self, by: Duration) -> Deadlines
        ensures { result ≡ D.shifted self by }
    {
        Deadlines {
            serial_ready: later(self.serial_ready, by),
            wake: self.wake,
            pause: later(self.pause, by),
            quiet: later(self.quiet, by),
            irq_hold: later(self.irq_hold, by),
            image: later(self.image, by),
        }
    }
}
