// One report of the lines, in the order of UM10204: START and STOP, byte, acknowledge, address, data. A test says whether a step
// applies, and the step matches the phase again, since the definitions go by UM10204's parts and not by phase.
ghost use Rattle.std.specs.Prelude.{◌≡◌, true, not, ◌&&◌, ◌<◌, Some, None};
ghost use Rattle.i2c.specs.Bus as B;
ghost use Rattle.i2c.specs.Engine as E;

use crate::edges::edge;
use crate::types::{Action, Answer, Edge, Following, Levels, Phase, Receive, State, Step};
use laws::{sent_bit, shifted_in};

// An edge of the clock.
fn clocks(e: Edge) -> bool
    ensures { result ≡ E.clocks e }
{
    e.is_rise() || e.is_fall()
}

// The edge belongs to a bit within a byte.
#[tactic(auto, unfolding(crate::specs::Engine::within_byte))]
fn within_byte(phase: Phase, bits: u8, e: Edge) -> bool
    ensures { result ≡ E.within_byte phase bits e }
{
    match phase {
        Phase::Receive(_) => e.is_rise() && bits < 7,
        Phase::Read(n) => clocks(e) && n < 8,
        _ => false,
    }
}

// The edge belongs to the ninth clock, the eighth fall included.
#[tactic(auto, unfolding(crate::specs::Engine::at_ninth))]
fn at_ninth(phase: Phase, e: Edge) -> bool
    ensures { result ≡ E.at_ninth phase e }
{
    match phase {
        Phase::Acknowledge(_, _) | Phase::MasterAcknowledge(_) => clocks(e),
        Phase::Read(n) => e.is_fall() && 8 <= n,
        _ => false,
    }
}

// A rise in a byte being received; it is asked after `within_byte`, so it is the eighth.
#[tactic(auto, unfolding(crate::specs::Engine::completes))]
fn completes(phase: Phase, e: Edge) -> bool
    ensures { result ≡ E.completes phase e }
{
    matches!(phase, Phase::Receive(_)) && e.is_rise()
}

// Quiet outside an acknowledge.
#[tactic(auto, unfolding(crate::specs::Engine::acknowledging))]
fn silenced(quiet: bool, phase: Phase) -> bool
    ensures { result ≡ quiet && not (E.acknowledging phase) }
{
    quiet && !matches!(phase, Phase::Acknowledge(_, _))
}

// The register pointer after bit n was taken: past the last it moves on modulo 128 (so does SPI's address, `completed` of `spi`).
#[tactic(auto, unfolding(crate::specs::Engine::pointer_after))]
fn pointer_after(pointer: u8, n: u8) -> u8
    ensures { result ≡ E.pointer_after pointer n }
{
    if n == 7 {
        pointer.wrapping_add(1) % 128
    } else {
        pointer
    }
}

// What the master's level at the ninth rise says.
#[tactic(auto, unfolding(crate::specs::Engine::answer))]
fn answer(sda: bool) -> Answer
    ensures { result ≡ E.answer sda }
{
    if sda {
        Answer::NotAcknowledge
    } else {
        Answer::Acknowledge
    }
}

// A rise that completes a value byte, or takes the first bit of a byte being sent, uses converted values.
#[tactic(auto, unfolding(crate::specs::Engine::uses_as, crate::specs::Engine::uses_at_rise))]
fn uses_at_rise(phase: Phase, bits: u8) -> bool
    ensures { result ≡ E.uses_at_rise phase bits }
{
    match phase {
        Phase::Receive(Receive::Data) => 7 <= bits,
        Phase::Read(n) => n == 0,
        _ => false,
    }
}

// So does a fall at which the byte to send is fetched.
#[tactic(auto, unfolding(crate::specs::Engine::reads_next, crate::specs::Engine::goes_on, crate::specs::Engine::uses_at_fall))]
fn uses_at_fall(phase: Phase) -> bool
    ensures { result ≡ E.uses_at_fall phase }
{
    matches!(
        phase,
        Phase::Acknowledge(Following::Read, 2) | Phase::MasterAcknowledge(Answer::Acknowledge)
    )
}

// A state alone: the sensor has nothing to do.
impl From<State> for Step {
    ghost from_gives = { λ s t. t ≡ E.and_do s None };

    fn from(state: State) -> Step {
        Step {
            state,
            action: None,
        }
    }
}

impl State {
    // The state of a sensor at its start.
    pub fn new() -> State
        ensures { result ≡ E.default }
    {
        State {
            phase: Phase::Idle,
            pointer: 0,
            bits: 0,
            shift: 0,
            low: false,
        }
    }

    // Waiting for START; only the register pointer stays.
    pub fn abort(self) -> State
        ensures { result ≡ E.aborted self }
    {
        State {
            pointer: self.pointer,
            ..State::new()
        }
    }

    // A state, and what the sensor has to do.
    fn and_do(self, action: Action) -> Step
        ensures { result ≡ E.and_do self (Some action) }
    {
        Step {
            state: self,
            action: Some(action),
        }
    }

    // The state in another phase.
    fn with_phase(self, phase: Phase) -> State
        ensures { result ≡ E.with_phase self phase }
    {
        State { phase, ..self }
    }

    // The state in another phase, with the data line held low or free.
    fn with_low(self, phase: Phase, low: bool) -> State
        ensures { result ≡ E.with_low self phase low }
    {
        State { phase, low, ..self }
    }

    // START or STOP: what was going on is dropped, and after START an address is received, unless quiet.
    #[tactic(auto, unfolding(crate::specs::Engine::conditioned))]
    fn conditioned(self, e: Edge, quiet: bool) -> Step
        ensures { result ≡ E.conditioned self e quiet }
    {
        let state = if !quiet && e.is_start() {
            self.abort().with_phase(Phase::Receive(Receive::Address))
        } else {
            self.abort()
        };
        state.and_do(Action::Drop)
    }

    // A bit of a byte is received.
    fn bit_received(self, e: Edge) -> Step
        requires { self.bits < 7 }
        ensures { result ≡ E.bit_received self e }
    {
        let state = State {
            bits: self.bits + 1,
            shift: shifted_in(self.shift, e.data_at()),
            ..self
        };
        state.into()
    }

    // The master takes bit n of the byte being sent.
    #[tactic(auto, unfolding(crate::specs::Engine::bit_taken))]
    fn bit_taken(self, n: u8) -> Step
        requires { n < 8 }
        ensures { result ≡ E.bit_taken self n }
    {
        let state = State {
            phase: Phase::Read(n + 1),
            pointer: pointer_after(self.pointer, n),
            ..self
        };
        if n == 0 {
            return state.and_do(Action::ReadBegan(self.pointer));
        }
        state.into()
    }

    // The pin shows bit n of the byte being sent.
    fn bit_shown(self, n: u8, sent: u8) -> Step
        ensures { result ≡ E.bit_shown self n sent }
    {
        let state = State {
            low: !sent_bit(sent, n),
            ..self
        };
        state.into()
    }

    // An edge within a byte: a bit is received, or the pin shows one and the master takes it.
    #[tactic(auto, unfolding(crate::specs::Engine::within_byte, crate::specs::Engine::byte_step))]
    fn byte_step(self, e: Edge, sent: u8) -> Step
        requires { E.within_byte self.phase self.bits e ≡ true }
        ensures { result ≡ E.byte_step self.phase self e sent }
    {
        match self.phase {
            Phase::Receive(_) => self.bit_received(e),
            Phase::Read(n) if e.is_rise() => self.bit_taken(n),
            Phase::Read(n) => self.bit_shown(n, sent),
            _ => self.into(),
        }
    }

    // The sensor's acknowledge is over.
    #[tactic(auto, unfolding(crate::specs::Engine::followed))]
    fn followed(self, f: Following) -> Step
        ensures { result ≡ E.followed self f }
    {
        let freed = State { low: false, ..self };
        match f {
            Following::Control => freed.with_phase(Phase::Receive(Receive::Control)).into(),
            Following::Data => freed.with_phase(Phase::Receive(Receive::Data)).into(),
            Following::Read => freed.and_do(Action::Launch(self.pointer)),
            Following::Idle => freed.with_phase(Phase::Idle).into(),
        }
    }

    // An edge of the ninth clock where the sensor acknowledges: low from the eighth fall to the ninth.
    #[tactic(auto, unfolding(crate::specs::Engine::acknowledge_step))]
    fn acknowledge_step(self, f: Following, n: u8, e: Edge) -> Step
        ensures { result ≡ E.acknowledge_step self f n e }
    {
        if e.is_rise() {
            return self.with_phase(Phase::Acknowledge(f, 2)).into();
        }
        match n {
            0 => self.with_low(Phase::Acknowledge(f, 1), true).into(),
            2 => self.followed(f),
            _ => self.into(),
        }
    }

    // The master's acknowledge is over.
    #[tactic(auto, unfolding(crate::specs::Engine::answered))]
    fn answered(self, a: Answer) -> Step
        ensures { result ≡ E.answered self a }
    {
        match a {
            Answer::Unseen => self.into(),
            Answer::Acknowledge => self.and_do(Action::Launch(self.pointer)),
            Answer::NotAcknowledge => self.abort().into(),
        }
    }

    // An edge of the ninth clock where the master answers, with the data level at its rise.
    #[tactic(auto, unfolding(crate::specs::Engine::answer_step))]
    fn answer_step(self, a: Answer, e: Edge) -> Step
        ensures { result ≡ E.answer_step self a e }
    {
        if e.is_rise() {
            let phase = Phase::MasterAcknowledge(answer(e.data_at()));
            return self.with_phase(phase).into();
        }
        self.answered(a)
    }

    // An edge of the ninth clock.
    #[tactic(auto, unfolding(crate::specs::Engine::ninth_step))]
    fn ninth_step(self, e: Edge) -> Step
        ensures { result ≡ E.ninth_step self.phase self e }
    {
        match self.phase {
            Phase::Acknowledge(f, n) => self.acknowledge_step(f, n, e),
            Phase::Read(_) => self
                .with_low(Phase::MasterAcknowledge(Answer::Unseen), false)
                .into(),
            Phase::MasterAcknowledge(a) => self.answer_step(a, e),
            _ => self.into(),
        }
    }

    // The sensor acknowledges what it received.
    fn acknowledging_with(self, f: Following) -> State
        ensures { result ≡ E.acknowledging_with self f }
    {
        self.abort().with_phase(Phase::Acknowledge(f, 0))
    }

    // An address byte: 70 to write, 71 to read, and silence after any other.
    #[tactic(auto, unfolding(crate::specs::Engine::addressed))]
    fn addressed(self, byte: u8) -> Step
        ensures { result ≡ E.addressed self byte }
    {
        let state = match byte {
            0x70 => self.acknowledging_with(Following::Control),
            0x71 => self.acknowledging_with(Following::Read),
            _ => self.abort(),
        };
        state.into()
    }

    // A register byte sets the pointer.
    fn pointed(self, byte: u8) -> Step
        ensures { result ≡ E.pointed self byte }
    {
        let state = State {
            pointer: byte % 128,
            ..self.acknowledging_with(Following::Data)
        };
        state.into()
    }

    // A byte was received.
    #[tactic(auto, unfolding(crate::specs::Engine::received))]
    fn received(self, k: Receive, byte: u8) -> Step
        ensures { result ≡ E.received k self byte }
    {
        match k {
            Receive::Address => self.addressed(byte),
            Receive::Control => self.pointed(byte),
            Receive::Data => self.abort().and_do(Action::Write(self.pointer, byte)),
        }
    }

    // The eighth rise completes a byte.
    #[tactic(auto, unfolding(crate::specs::Engine::completed))]
    fn completed(self, e: Edge) -> Step
        ensures { result ≡ E.completed self.phase self e }
    {
        match self.phase {
            Phase::Receive(k) => self.received(k, shifted_in(self.shift, e.data_at())),
            _ => self.into(),
        }
    }

    // The event e: the first step that applies.
    #[tactic(auto, unfolding(crate::specs::Engine::step))]
    pub fn stepped(self, e: Edge, quiet: bool, sent: u8) -> Step
        ensures { result ≡ E.step self e quiet sent }
    {
        if e.is_condition() {
            self.conditioned(e, quiet)
        } else if silenced(quiet, self.phase) {
            self.abort().into()
        } else if within_byte(self.phase, self.bits, e) {
            self.byte_step(e, sent)
        } else if at_ninth(self.phase, e) {
            self.ninth_step(e)
        } else if completes(self.phase, e) {
            self.completed(e)
        } else {
            self.into()
        }
    }

    // One report of the lines, as 01 has the call; `stepped` is for a caller that has the event. `sent` is the byte being sent, ff where
    // `peek` withholds it.
    pub fn step(self, before: Levels, after: Levels, quiet: bool, sent: u8) -> Step
        ensures { result ≡ E.step self (B.edge before after) quiet sent }
    {
        self.stepped(edge(before, after), quiet, sent)
    }

    // After a register was written: the acknowledge begins.
    pub fn written(self, quiet: bool) -> State
        ensures { result ≡ E.written self quiet }
    {
        let following = if quiet {
            Following::Idle
        } else {
            Following::Control
        };
        self.with_phase(Phase::Acknowledge(following, 0))
    }

    // After the byte to send was fetched: its first bit is shown.
    pub fn launched(self, sent: u8) -> State
        ensures { result ≡ E.launched self sent }
    {
        self.with_low(Phase::Read(0), !sent_bit(sent, 0))
    }

    // Whether this report uses converted values, so that a sample at the same moment comes first.
    #[tactic(auto, unfolding(crate::specs::Engine::consumes_conversion))]
    pub fn consumes(self, e: Edge) -> bool
        ensures { result ≡ E.consumes_conversion self e }
    {
        if e.is_rise() {
            uses_at_rise(self.phase, self.bits)
        } else {
            e.is_fall() && uses_at_fall(self.phase)
        }
    }

    // The same of a report, as 01 has the call.
    pub fn consumes_conversion(self, before: Levels, after: Levels) -> bool
        ensures { result ≡ E.consumes_conversion self (B.edge before after) }
    {
        self.consumes(edge(before, after))
    }
}
