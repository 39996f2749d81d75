// The functions that keep nothing: times, the torn byte, registers.
use crate::kind::Kind;
use crate::record::{Answer, Record, raised, truths};
use nv::WriteCycle;
use registers::access::{Gate, begins, ignores, stored, withheld};
use registers::codes::{code, code_high, code_low, offset, temperature};
use registers::fields::{has, range};
use time::{Clock, Duration, Time};

impl From<Time> for Answer {
    fn from(Time(seconds, fraction): Time) -> Answer {
        Answer(seconds, fraction)
    }
}

impl From<Duration> for Answer {
    fn from(Duration(seconds, fraction): Duration) -> Answer {
        Answer(seconds, fraction)
    }
}

impl Record {
    // The moment n, x.
    pub(crate) fn moment(self) -> Time {
        Time(self.n.into(), self.x)
    }

    // The moment y, z.
    pub(crate) fn other_moment(self) -> Time {
        Time(self.y, self.z)
    }
}

// The byte of cell 20000 hex + c at the moment y, z, in a write of b over a from the moment n, x.
pub(crate) fn torn(r: Record) -> Answer {
    let cycle = WriteCycle::start(r.moment());
    let cell = 0x20000 + u32::from(r.c);
    Answer(0, cycle.byte(r.a, r.b, cell, r.other_moment()).into())
}

// When a write from the moment n, x ends.
pub(crate) fn ends(r: Record) -> Answer {
    WriteCycle::start(r.moment()).deadline().into()
}

// The moments n, x and y, z compared: whether the first precedes, whether they are one.
fn compared(r: Record) -> Answer {
    let t = r.moment();
    let u = r.other_moment();
    Answer(t.precedes(u).into(), t.same(u).into())
}

// A clock from the moment n, x on, as many edges further as the bytes a, b, c say.
fn clock(r: Record) -> Clock {
    Clock::new(r.moment()).advance(u32::from_be_bytes([0, r.a, r.b, r.c]).into())
}

// What a record asks of a clock: its last edge, its next, or the edges before the moment y, z.
pub(crate) fn clocked(r: Record) -> Answer {
    let c = clock(r);
    match r.kind {
        Kind::Last => c.last().into(),
        Kind::Next => c.next().into(),
        _ => Answer(c.edges_before(r.other_moment()), c.ordinal()),
    }
}

// What a record asks of moments and lengths.
pub(crate) fn moments(r: Record) -> Answer {
    match r.kind {
        Kind::Plus => r.moment().plus(Duration(r.y, r.z)).into(),
        Kind::Since => r.other_moment().since(r.moment()).into(),
        Kind::NextUnit => r.moment().next_unit().into(),
        Kind::Millis => Duration::from_millis(r.x).into(),
        Kind::Micros => Duration::from_micros(r.x).into(),
        _ => compared(r),
    }
}

// The code of the acceleration n with the offset registers a and b and the range of c, and its two registers.
pub(crate) fn coded(r: Record) -> Answer {
    let z = code(r.n.cast_signed().into(), offset(r.a, r.b), range(r.c));
    Answer(
        raised(z),
        u16::from_be_bytes([code_high(z), code_low(z)]).into(),
    )
}

pub(crate) fn warm(r: Record) -> Answer {
    Answer(0, temperature(r.n.cast_signed()).into())
}

// A write takes effect.
fn taken(r: Record, gate: Gate, starts: bool) -> bool {
    if stored(r.a) {
        starts
    } else {
        !ignores(r.a, r.b, gate)
    }
}

// A write of b to a and a read of a, with 0a holding c. The bits of x: quiet, copying, asleep, a stored write runs.
pub(crate) fn access(r: Record) -> Answer {
    let flags = (r.x % 16) as u8;
    let gate = Gate {
        control: r.c,
        quiet: has(flags, 0),
        copying: has(flags, 1),
        asleep: has(flags, 2),
    };
    let starts = begins(r.a, r.b, gate, has(flags, 3));
    Answer(
        taken(r, gate, starts).into(),
        truths(starts, withheld(r.a, gate)),
    )
}
