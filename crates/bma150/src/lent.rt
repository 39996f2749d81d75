// The due call and the pin call over one lent sensor, altered where the host keeps it.
ghost use Rattle.std.specs.Prelude.{◌≡◌};
ghost use Rattle.bma150.specs.Lent.{DueLent, PinsLent};

use crate::host::Bma150;
use crate::types::Replied;
use calls::types::Refusal;
use i2c::types::Levels;
use time::Time;
use waits::types::Report;

pub fn due_lent(s: &mut Bma150, when: Time) -> Result<Option<Report>, Refusal>
    ensures { DueLent s.old when s.new result }
{
    let Replied { sensor, answer } = s.due(when);
    *s = sensor;
    answer
}

pub fn pins_lent(s: &mut Bma150, when: Time, before: Levels, after: Levels) -> Result<(), Refusal>
    ensures { PinsLent s.old when before after s.new result }
{
    let Replied { sensor, answer } = s.pins(when, before, after);
    *s = sensor;
    answer
}
