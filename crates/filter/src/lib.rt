// The moving average of each axis over its last codes, for a window of 1 to 64.
#![tactic(auto)]

ghost use Rattle.std.specs.Prelude.{◌≡◌, ◌+◌, ◌-◌, ◌*◌, ◌^◌, ◌<◌, ◌≤◌, min, take, length};
ghost use Rattle.std.specs.Int.Signed.{mag};
ghost use Rattle.filter.specs.Mean.{ring, sumZ, mean};
ghost use Rattle.filter.specs.Filter.{shift_of, window_of, window, made, selected, grown, pushed, full, answered};

// The ring of an axis: the place that is written next, and how many codes it holds.
#[derive(Clone, Copy)]
struct Ring {
    next: u8,
    count: u8,
}

// `history` holds the last 64 codes of each axis, each at axis * 64 + its place in the ring. The window is 2^shift.
#[derive(Clone, Copy)]
pub struct Filter {
    history: [i16; 192],
    rings: [Ring; 3],
    shift: u8,
}

// A filter after a code, and its answer: `full` says that it is the mean of a full window, else it is the code itself. A flag and no
// enum: the code is an answer either way. The sensor keeps it (`means`), and a view tells it (`Mark`).
#[derive(Clone, Copy)]
pub struct Pushed {
    pub filter: Filter,
    pub code: i16,
    pub full: bool,
}

// The shift of a bandwidth code.
fn shift_of(bandwidth: u8) -> u8
    ensures { result ≡ shift_of bandwidth }
{
    6 - bandwidth.min(6)
}

// The window of a shift.
fn window_of(shift: u8) -> u8
    ensures { result ≡ window_of shift }
{
    1u8 << shift.min(6)
}

impl Ring {
    // One code more: the place after it is next, and 64 are counted at most.
    fn grown(self) -> Ring
        ensures { result ≡ grown self }
    {
        Ring {
            next: (self.next % 64 + 1) % 64,
            count: self.count.saturating_add(1).min(64),
        }
    }
}

// The sum of some codes. `codes.iter().map(..).sum()` was tried: that the sum fits, which the contract of `sum` asks, did not close.
#[tactic(auto, unfolding(crate::specs::Mean::sumZ))]
fn sum_of(codes: &[i16]) -> i32
    requires { length codes.now ≤ 64 }
    ensures { (result ≡ sumZ codes.now) × (mag result ≤ length codes.now * 32768 - 1) }
{
    let mut total = 0;
    for code in codes {
        total += i32::from(*code);
    }
    total
}

// The sum of the last `window` codes of a ring, whose newest stands at `at`: those at and below it, and the others from the ring's end.
// A ring has no first place, so that of its newest comes with it, here and in `mean_of`.
fn window_sum(codes: &[i16], at: usize, window: usize) -> i32
    requires { (length codes.now ≡ 64) × (at < 64) × (1 ≤ window) × (window ≤ 64) }
    ensures { (result ≡ sumZ (take window (ring codes.now 0 at))) × (mag result < window * 32768) }
{
    let near = window.min(at + 1);
    let far = window - near;
    sum_of(&codes[at + 1 - near..at + 1]) + sum_of(&codes[64 - far..64])
}

// The floor of the mean of the last 2^shift codes of a ring.
fn mean_of(codes: &[i16], at: usize, shift: u8) -> i16
    requires { (length codes.now ≡ 64) × (at < 64) × (shift ≤ 6) }
    ensures { result ≡ mean (2 ^ shift) (ring codes.now 0 at) }
{
    (window_sum(codes, at, 1 << shift) >> shift) as i16
}

impl Filter {
    // A filter of no codes.
    pub fn new(bandwidth: u8) -> Filter
        ensures { result ≡ made bandwidth }
    {
        Filter {
            history: [0; 192],
            rings: [Ring { next: 0, count: 0 }; 3],
            shift: shift_of(bandwidth),
        }
    }

    // How many codes the mean is of.
    pub fn window(self) -> u8
        ensures { result ≡ window self }
    {
        window_of(self.shift)
    }

    // Another bandwidth. The codes stay.
    pub fn select(self, bandwidth: u8) -> Filter
        ensures { result ≡ selected self bandwidth }
    {
        let shift = shift_of(bandwidth);
        Filter { shift, ..self }
    }

    // A code comes on an axis: the filter after it, and what it answers. 01 takes the filter by value; `take_code` below is the same where
    // the filter is kept. The axis is a number, taken modulo 3: a type of three values would narrow what a caller may hand in.
    pub fn push(mut self, axis: u8, code: i16) -> Pushed
        ensures filter_value { result.filter ≡ pushed self axis code }
        ensures code_value { result.code ≡ answered self axis code }
        ensures full_value { result.full ≡ full self axis }
    {
        let (code, full) = self.take_code(axis, code);
        Pushed {
            filter: self,
            code,
            full,
        }
    }

    // `push` on the filter where it is kept: answers the code, or the mean once the window is full, and whether it is the mean.
    pub fn take_code(&mut self, axis: u8, code: i16) -> (i16, bool)
        ensures filter_after { self.new ≡ pushed self.old axis code }
        ensures code_value { result.0 ≡ answered self.old axis code }
        ensures full_value { result.1 ≡ full self.old axis }
    {
        let a = usize::from(axis % 3);
        let place = usize::from(self.rings[a].next % 64);
        let ring = self.rings[a].grown();
        self.history[a * 64 + place] = code;
        self.rings[a] = ring;
        if ring.count < window_of(self.shift) {
            return (code, false);
        }
        let codes = &self.history[a * 64..a * 64 + 64];
        let mean = mean_of(codes, place, self.shift.min(6));
        (mean, true)
    }
}
