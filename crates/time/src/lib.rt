// Moments, lengths of time and the 12000 Hz clock (time.rs).
#![tactic(auto)]

ghost use Rattle.std.specs.Prelude.{◌≡◌, ◌+◌, ◌-◌, ◌*◌, ◌/◌, ◌^◌, ◌<◌, min};
ghost use Rattle.time.specs.Time as T;
ghost use Rattle.time.specs.Clock as C;

// The edges of the clock in a second.
const RATE: u64 = 12000;

// The length of a scan of temperature and axes, four edges or a third of a millisecond, in units of 2^-64 s.
pub const SCAN: u64 = ((1u128 << 64) / 3000) as u64;

// The low word of a number of units.
const LOW: u128 = u64::MAX as u128;

// A moment: whole seconds and a fraction in units of 2^-64 s.
#[derive(Clone, Copy, Debug, PartialEq, Eq, PartialOrd, Ord)]
pub struct Time(pub u64, pub u64);

// A length of time: whole seconds and a fraction in units of 2^-64 s.
#[derive(Clone, Copy, Debug, PartialEq, Eq)]
pub struct Duration(pub u64, pub u64);

// The clock that samples: its start, and the number of the last edge that it advanced to.
#[derive(Clone, Copy, Debug, PartialEq, Eq)]
pub struct Clock {
    pub start: Time,
    pub ordinal: u64,
}

impl Time {
    // The units since the start of time. A moment and a length each have their own: 01 keeps them two types.
    fn ticks(self) -> u128
        ensures { result ≡ T.ticks self }
    {
        u128::from(self.0) << 64 | u128::from(self.1)
    }

    // The moment of n units.
    fn from_ticks(ticks: u128) -> Time
        ensures { result ≡ T.time ticks }
    {
        Time((ticks >> 64) as u64, (ticks & LOW) as u64)
    }

    // The moment a length later than this one, modulo 2^128 units.
    pub fn plus(self, d: Duration) -> Time
        ensures { result ≡ T.plus self d }
    {
        Time::from_ticks(self.ticks().wrapping_add(d.ticks()))
    }

    // The length from an earlier moment to this one; none where that is later.
    pub fn since(self, earlier: Time) -> Duration
        ensures { result ≡ T.since self earlier }
    {
        Duration::from_ticks(self.ticks().saturating_sub(earlier.ticks()))
    }

    // One unit later; the last moment stays.
    pub fn next_unit(self) -> Time
        ensures { result ≡ T.next_unit self }
    {
        Time::from_ticks(self.ticks().saturating_add(1))
    }

    // Whether this moment lies strictly before another. Beside `<`, as `same` beside `==`: these contracts speak of units, the derived
    // ones of two fields.
    pub fn precedes(self, other: Time) -> bool
        ensures { result ≡ T.precedes self other }
    {
        self < other
    }

    // Whether this moment and another are one.
    pub fn same(self, other: Time) -> bool
        ensures { result ≡ T.same self other }
    {
        self == other
    }
}

impl Duration {
    // The units that it lasts.
    fn ticks(self) -> u128
        ensures { result ≡ T.lasts self }
    {
        u128::from(self.0) << 64 | u128::from(self.1)
    }

    // The length of n units.
    fn from_ticks(ticks: u128) -> Duration
        ensures { result ≡ T.duration ticks }
    {
        Duration((ticks >> 64) as u64, (ticks & LOW) as u64)
    }

    // This length without another; none where that is longer.
    pub fn saturating_sub(self, other: Duration) -> Duration
        ensures { result ≡ T.without self other }
    {
        Duration::from_ticks(self.ticks().saturating_sub(other.ticks()))
    }

    // n of the N equal parts of a second, rounded down to units. One division of n << 64 by N is proved too, but in 128 bits
    // it takes 45 ns where this takes 5, and each sample phase, of 63 ns, asks for an edge.
    fn of_parts<const N: u64>(n: u64) -> Duration
        requires { (1 < N) × (N < 2 ^ 32) }
        ensures { result ≡ T.duration (n * 2 ^ 64 / N) }
    {
        let second = 1u128 << 64;
        let parts = u128::from(N);
        let whole = (second / parts) as u64;
        let rest = (second % parts) as u64;
        let part = n % N;
        Duration(n / N, part * whole + part * rest / N)
    }

    // A number of milliseconds, rounded down to units.
    pub fn from_millis(ms: u64) -> Duration
        ensures { result ≡ T.from_millis ms }
    {
        Duration::of_parts::<1000>(ms)
    }

    // A number of microseconds, rounded down to units.
    pub fn from_micros(us: u64) -> Duration
        ensures { result ≡ T.from_micros us }
    {
        Duration::of_parts::<1000000>(us)
    }
}

// How many edges lie strictly before the end of a length that begins at edge 0; edge 0 is not counted.
fn edges_in(d: Duration) -> u64
    ensures { result ≡ min (2 ^ 64 - 1) ((12000 * T.lasts d - 1) / 2 ^ 64) }
{
    let ticks = d.ticks().saturating_sub(1);
    let part = ((ticks & LOW) * u128::from(RATE) + u128::from(RATE - 1)) >> 64;
    ((ticks >> 64) * u128::from(RATE) + part).min(LOW) as u64
}

impl Clock {
    // A clock at its start.
    pub fn new(at: Time) -> Clock
        ensures { result ≡ C.started at }
    {
        Clock {
            start: at,
            ordinal: 0,
        }
    }

    // The moment of the last edge that the clock advanced to.
    pub fn last(self) -> Time
        ensures { result ≡ C.last self }
    {
        self.start.plus(Duration::of_parts::<RATE>(self.ordinal))
    }

    // The moment of the edge after it.
    pub fn next(self) -> Time
        ensures { result ≡ C.next self }
    {
        self.advance(1).last()
    }

    // The clock some edges further.
    pub fn advance(self, edges: u64) -> Clock
        ensures { result ≡ C.advanced self edges }
    {
        Clock {
            ordinal: self.ordinal.wrapping_add(edges),
            ..self
        }
    }

    // The number of the last edge that the clock advanced to.
    pub fn ordinal(self) -> u64
        ensures { result ≡ self.ordinal }
    {
        self.ordinal
    }

    // How many edges after the clock's last one lie strictly before a limit.
    pub fn edges_before(self, limit: Time) -> u64
        ensures { result ≡ C.edges_before self limit }
    {
        edges_in(limit.since(self.start)).saturating_sub(self.ordinal)
    }
}
