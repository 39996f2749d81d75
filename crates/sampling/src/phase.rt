// One sample phase, and runs of them.
ghost use Rattle.std.specs.Prelude.{◌≡◌, ◌<◌};
ghost use Rattle.time.specs.Clock as C;
ghost use Rattle.analog.specs.Axis as Ax;
ghost use Rattle.sampling.specs.Phase as P;

use crate::types::{Acquisition, Input, Sampling};
use analog::types::Axis;
use control::lengths::acquisition_cycles;
use registers::codes::{code, code_high, code_low, offset, temperature};
use registers::fields::{
    ACC_LSB, ACC_MSB, CONTROL, MEASUREMENT, NEW_DATA, NEW_DATA_INT, OFFSET_LSB, OFFSET_MSB,
    OPERATION, SELF_TEST_0, SELF_TEST_1, ST_RESULT, STATUS, TEMP, WAKE_UP, has, range,
};

// The code of an axis's sampled acceleration. An axis is a number below 3, as in the definitions: a type of three values would be cast
// back to index. `measure` asks the same.
#[tactic(auto, unfolding(crate::specs::Phase::converted))]
fn converted(registers: &[u8; 62], acceleration: i64, axis: u8) -> i16
    requires { axis < 3 }
    ensures { result ≡ P.converted registers.now acceleration axis }
{
    if has(registers[CONTROL], SELF_TEST_1) {
        return 0;
    }
    let a = usize::from(axis);
    code(
        acceleration,
        offset(registers[OFFSET_LSB + a], registers[OFFSET_MSB + a]),
        range(registers[MEASUREMENT]),
    )
}

#[tactic(auto, unfolding(crate::specs::Phase::all_new))]
fn all_new(registers: [u8; 62]) -> bool
    ensures { result ≡ P.all_new registers }
{
    has(registers[ACC_LSB], NEW_DATA)
        && has(registers[ACC_LSB + 2], NEW_DATA)
        && has(registers[ACC_LSB + 4], NEW_DATA)
}

#[tactic(auto, unfolding(crate::specs::Phase::ready))]
fn ready(registers: [u8; 62], old: bool) -> bool
    ensures { result ≡ P.ready registers old }
{
    has(registers[OPERATION], NEW_DATA_INT) && all_new(registers) || old
}

// One phase less of a self test that runs.
#[tactic(auto, unfolding(crate::specs::Phase::test_counted))]
fn test_counted(test: Option<u8>) -> Option<u8>
    ensures { result ≡ P.test_counted test }
{
    test.map(|n| n.saturating_sub(1))
}

impl Sampling {
    // Whether the sensor has been awake for the scans of an acquisition.
    pub fn acquired(self) -> bool
        ensures { result ≡ P.acquired self }
    {
        acquisition_cycles(self.filter.window()) <= self.auto_cycles
    }
}

// The stage of an axis at the clock's last edge.
fn lagged(s: &Sampling, input: Input, axis: u8) -> Axis
    ensures { result ≡ Ax.advanced (Ax.axis_of s.now.analog axis) (C.last s.now.clock) (Ax.axis_of input.acceleration axis) }
{
    let a = s.analog.axis(axis);
    a.sample(s.clock.last(), input.acceleration.axis(axis))
}

// A record of `input` and `needs` would be made only to be taken apart: `input` ends in `measure`, `needs` in `end_scan`. `needs` is no
// constant here, since the definitions are of any four needs.
impl Acquisition {
    // Whether the scans are observed.
    #[tactic(auto, unfolding(crate::specs::Phase::observing))]
    fn observing(&self) -> bool
        ensures { result ≡ P.observing self.now.registers self.now.sampling }
    {
        !has(self.registers[OPERATION], WAKE_UP) || self.sampling.acquired()
    }

    // How many scans make one observation.
    #[tactic(auto, unfolding(crate::specs::Phase::interval))]
    fn interval(&self) -> u8
        ensures { result ≡ P.interval self.now.registers self.now.sampling }
    {
        let window = self.sampling.filter.window();
        if has(self.registers[OPERATION], WAKE_UP)
            && self.sampling.auto_cycles == acquisition_cycles(window)
        {
            return 1;
        }
        window
    }

    // The stage of an axis is sampled: its code is filtered, and the answer shown.
    fn measure(&mut self, input: Input, axis: u8)
        requires { axis < 3 }
        ensures { self.new ≡ P.measured self.old input axis }
    {
        let a = usize::from(axis);
        let stage = lagged(&self.sampling, input, axis);
        let k = converted(&self.registers, stage.value(), axis);
        self.sampling.analog = self.sampling.analog.with_axis(axis, stage);
        let (answer, full) = self.sampling.filter.take_code(axis, k);
        self.registers[ACC_LSB + a * 2] = code_low(answer);
        self.registers[ACC_MSB + a * 2] = code_high(answer);
        self.sampling.filtered[a] = answer;
        self.sampling.means[a] = full;
        self.interrupts = self.interrupts.axis(axis, answer, self.registers);
    }

    // The scan is complete: it is counted, and observed for motion.
    #[tactic(auto, unfolding(crate::specs::Phase::observed))]
    fn end_scan(&mut self, needs: [u8; 4])
        ensures { self.new ≡ P.observed (P.counted self.old) needs }
    {
        self.sampling.data_ready = ready(self.registers, self.sampling.data_ready);
        self.sampling.auto_cycles = self.sampling.auto_cycles.saturating_add(1);
        if self.observing() {
            let apart = self.interval();
            self.interrupts = self
                .interrupts
                .cycle(self.sampling.filtered, apart, self.registers, needs);
        }
    }

    fn end_test(&mut self)
        ensures { self.new ≡ P.test_ended self.old }
    {
        self.registers[CONTROL] &= !(1 << SELF_TEST_0);
        self.registers[STATUS] |= 1 << ST_RESULT;
        self.sampling.test = None;
    }

    // A phase of an axis: phases 1 to 3 are 01's numbers, and so are the definitions'.
    #[tactic(auto, unfolding(crate::specs::Phase::axis_phase, crate::specs::Phase::scanned))]
    fn axis_phase(&mut self, input: Input, phase: u8, needs: [u8; 4])
        requires { (0 < phase) × (phase < 4) }
        ensures { self.new ≡ P.axis_phase self.old.sampling.test self.old input phase needs }
    {
        match self.sampling.test {
            None => {
                self.measure(input, phase - 1);
                if phase == 3 {
                    self.end_scan(needs);
                }
            }
            Some(left) => {
                if phase == 3 && left == 0 {
                    self.end_test();
                }
            }
        }
    }

    // The phase of the clock's last edge.
    #[tactic(auto, unfolding(crate::specs::Phase::sample_phase))]
    fn sample_phase(&mut self, input: Input, needs: [u8; 4])
        ensures { self.new ≡ P.sample_phase self.old input needs }
    {
        let phase = ((self.sampling.clock.ordinal % 4 + 3) % 4) as u8;
        self.sampling.test = test_counted(self.sampling.test);
        if phase == 0 {
            self.registers[TEMP] = temperature(input.temperature_millicelsius);
            return;
        }
        self.axis_phase(input, phase, needs);
    }

    // A millisecond passes at every twelfth edge.
    #[tactic(auto, unfolding(crate::specs::Phase::ticked, crate::specs::Phase::ticks_now))]
    fn tick(&mut self)
        ensures { self.new ≡ P.ticked self.old }
    {
        if self.sampling.clock.ordinal % 12 == 0 && self.observing() {
            self.interrupts = self.interrupts.millisecond(self.registers);
        }
    }

    // The clock's next edge: its phase, and the millisecond.
    #[tactic(auto, unfolding(crate::specs::Phase::sample))]
    fn sample(&mut self, input: Input, needs: [u8; 4])
        ensures { self.new ≡ P.sample input needs self.old }
    {
        self.sampling.clock = self.sampling.clock.advance(1);
        self.sample_phase(input, needs);
        self.tick();
    }

    // The phases of n edges, one after the other.
    #[tactic(auto, unfolding(laws::specs::Iterate::iterate))]
    pub fn samples(mut self, n: u64, input: Input, needs: [u8; 4]) -> Acquisition
        ensures { result ≡ P.samples n self input needs }
    {
        for _ in 0..n {
            self.sample(input, needs);
        }
        self
    }
}
