// The decisions of `automatic_control` in automatic mode.
ghost use Rattle.std.specs.Prelude.{◌≡◌};
ghost use Rattle.control.specs.Automatic as Automatic;

// The interrupt pin is held: a new criterion, not latched.
#[tactic(auto, unfolding(crate::specs::Automatic::holds))]
pub fn holds(was_criterion: bool, latch: bool, criterion: bool) -> bool
    ensures { result ≡ Automatic.holds was_criterion latch criterion }
{
    !was_criterion && !latch && criterion
}

// A sleep that no pause ends: the pause begins now.
#[tactic(auto, unfolding(crate::specs::Automatic::pauses_again))]
pub fn pauses_again(asleep: bool, pause_set: bool) -> bool
    ensures { result ≡ Automatic.pauses_again asleep pause_set }
{
    asleep && !pause_set
}

// What the sensor is doing: it sleeps, wakes, tests itself, copies its image, writes a cell, has valid samples, raises its
// interrupt, verifies a criterion.
#[derive(Clone, Copy, Debug, PartialEq, Eq)]
pub struct Activity {
    pub asleep: bool,
    pub waking: bool,
    pub testing: bool,
    pub copying: bool,
    pub writing: bool,
    pub acquired: bool,
    pub interrupt: bool,
    pub verifying: bool,
}

// The sensor may pause.
#[tactic(auto, unfolding(crate::specs::Automatic::may_pause))]
pub fn may_pause(verify: bool, does: Activity) -> bool
    ensures { result ≡ Automatic.may_pause verify does }
{
    verify
        && !does.asleep
        && !does.waking
        && !does.testing
        && !does.copying
        && !does.writing
        && does.acquired
        && !does.interrupt
        && !does.verifying
}
