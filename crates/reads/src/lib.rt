// Reads of the acceleration registers: a pair of bytes held from the low byte to the high byte (bma150.rs).
#![tactic(auto)]

ghost use Rattle.std.specs.Prelude.{◌≡◌, ◌<◌, get_or};
ghost use Rattle.reads.specs.Reads as R;

use registers::fields::NEW_DATA;

// The byte that is being sent with shadowing on: a low byte from its pair, or a high byte.
#[derive(Clone, Copy, Debug, PartialEq, Eq)]
pub enum Shadowed {
    Low([u8; 2]),
    High,
}

// What the reads keep: the held pair of each axis, the last high byte of each, and the shadowed byte that is being sent (the Rust's
// `tx_shadow` with its `tx_pair`). `release`, `forget` and `drop` each clear one of the three.
#[derive(Clone, Copy, Debug, Default, PartialEq, Eq)]
pub struct Reads {
    pub shadows: [Option<[u8; 2]>; 3],
    pub last_msb: [u8; 3],
    pub sending: Option<Shadowed>,
}

// The reads and the byte to send.
#[derive(Clone, Copy, Debug, PartialEq, Eq)]
pub struct Prepared {
    pub reads: Reads,
    pub byte: u8,
}

// Whether an address is that of an acceleration, 02 to 07.
#[tactic(auto, unfolding(crate::specs::Reads::is_acceleration))]
pub fn is_acceleration(address: u8) -> bool
    ensures { result ≡ R.is_acceleration address }
{
    (0x02..=0x07).contains(&address)
}

// The axis of an acceleration's address. A number, since any address has one: a type of three values would narrow what a caller may hand in.
pub fn axis_of(address: u8) -> u8
    ensures { result ≡ R.axis_of address }
{
    address.saturating_sub(0x02) / 2
}

// Whether an acceleration's byte comes from a pair.
#[tactic(auto, unfolding(crate::specs::Reads::is_shadowed))]
fn is_shadowed(address: u8, shadowing: bool) -> bool
    ensures { result ≡ R.is_shadowed address shadowing }
{
    shadowing && is_acceleration(address)
}

// A low byte with new_data clear.
pub fn without_new_data(byte: u8) -> u8
    ensures { result ≡ R.without_new_data byte }
{
    byte & !(1 << NEW_DATA)
}

impl Reads {
    // Nothing is held.
    pub fn new() -> Reads
        ensures { result ≡ R.new }
    {
        Reads::default()
    }

    // No pair is held any more.
    pub fn release(self) -> Reads
        ensures { result ≡ R.released self }
    {
        Reads {
            shadows: [None; 3],
            ..self
        }
    }

    // The last high bytes are 0.
    pub fn forget(self) -> Reads
        ensures { result ≡ R.forgotten self }
    {
        Reads {
            last_msb: [0; 3],
            ..self
        }
    }

    // Nothing is being sent.
    pub fn drop(self) -> Reads
        ensures { result ≡ R.dropped self }
    {
        Reads {
            sending: None,
            ..self
        }
    }

    // A low byte is sent from its pair.
    fn prepare_low(self, pair: [u8; 2]) -> Prepared
        ensures { result ≡ R.prepared_from self pair }
    {
        let reads = Reads {
            sending: Some(Shadowed::Low(pair)),
            ..self
        };
        Prepared {
            reads,
            byte: pair[0],
        }
    }

    // A high byte is sent, without a pair.
    fn prepare_high(self, byte: u8) -> Prepared
        ensures { result ≡ R.prepared_high self byte }
    {
        let reads = Reads {
            sending: Some(Shadowed::High),
            ..self
        };
        Prepared { reads, byte }
    }

    // The byte to send for a register that shows `viewed`; `current` are the two registers of the address's axis. A pair that is
    // held for the axis comes before them, and a high byte without one is the last one of the axis.
    #[tactic(auto, unfolding(crate::specs::Reads::prepared, crate::specs::Reads::pair, crate::specs::Reads::high_byte), using(crate::specs::Theorems::Pairs::axis_lt))]
    pub fn prepare(self, address: u8, viewed: u8, current: [u8; 2], shadowing: bool) -> Prepared
        ensures { result ≡ R.prepared self address viewed (get_or current 0 0) (get_or current 1 0) shadowing }
    {
        let reads = self.drop();
        if !is_shadowed(address, shadowing) {
            return Prepared {
                reads,
                byte: viewed,
            };
        }
        let axis = usize::from(axis_of(address));
        let held = self.shadows[axis];
        if address % 2 == 0 {
            return reads.prepare_low(held.unwrap_or(current));
        }
        reads.prepare_high(match held {
            Some(pair) => pair[1],
            None => self.last_msb[axis],
        })
    }

    // The pair that was sent from is held for its axis.
    fn hold(mut self, axis: u8, pair: [u8; 2]) -> Reads
        requires { axis < 3 }
        ensures { result ≡ R.holding self axis pair }
    {
        let [low, high] = pair;
        self.shadows[usize::from(axis)] = Some([without_new_data(low), high]);
        self
    }

    // The high byte that was sent is the last one of its axis, whose pair is released.
    fn finish(mut self, axis: u8, sent: u8) -> Reads
        requires { axis < 3 }
        ensures { result ≡ R.finished self axis sent }
    {
        let i = usize::from(axis);
        self.shadows[i] = None;
        self.last_msb[i] = sent;
        self
    }

    // The first bit of the byte `sent` was taken.
    #[tactic(auto, unfolding(crate::specs::Reads::began, crate::specs::Reads::sent_byte_read), using(crate::specs::Theorems::Pairs::axis_of_lt))]
    pub fn read_began(self, address: u8, sent: u8) -> Reads
        ensures { result ≡ R.read_began self address sent }
    {
        if !is_acceleration(address) {
            return self;
        }
        let axis = axis_of(address);
        match self.sending {
            Some(Shadowed::Low(pair)) => self.hold(axis, pair),
            Some(Shadowed::High) => self.finish(axis, sent),
            None => self,
        }
    }
}
