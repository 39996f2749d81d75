// Acquisition, pauses, automatic mode, soft reset (bma150/control.rs).
ghost use Rattle.std.specs.Prelude.{◌≡◌};
ghost use Rattle.sensor.specs.Mode as C;

use crate::image::reset_registers;
use crate::types::Sensor;
use control::automatic::{Activity, holds, may_pause, pauses_again};
use control::lengths::{acquisition_delay, pause_length, pauses};
use filter::Filter;
use i2c::types::State;
use interrupts::Interrupts;
use registers::fields::{
    LATCH_INT, MEASUREMENT, NEW_DATA_INT, OPERATION, bandwidth, has, wake_up_pause,
};
use sampling::types::Sampling;
use time::{Duration, Time};

fn acquiring(sampling: Sampling, b: u8, now: Time) -> Sampling
    ensures { result ≡ C.acquiring sampling b now }
{
    Sampling {
        filter: Filter::new(b),
        asleep: false,
        auto_cycles: 0,
        ..sampling.resume(now)
    }
}

fn cleared(sampling: Sampling, now: Time) -> Sampling
    ensures { result ≡ C.cleared sampling now }
{
    Sampling {
        filtered: [0; 3],
        means: [false; 3],
        test: None,
        data_ready: false,
        ..sampling.rest(now)
    }
}

#[tactic(auto, unfolding(crate::specs::Mode::reset_time))]
fn reset_time(asleep: bool) -> Duration
    ensures { result ≡ C.reset_time asleep }
{
    if asleep {
        return Duration::from_millis(30);
    }
    Duration::from_micros(1300)
}

impl Sensor {
    pub fn start_acquisition(mut self, now: Time, ready: Duration) -> Sensor
        ensures { result ≡ C.start_acquisition self now ready }
    {
        let scan = now.plus(acquisition_delay(ready));
        let bandwidth = bandwidth(self.registers[MEASUREMENT]);
        self.reads = self.reads.release();
        self.sampling = acquiring(self.sampling, bandwidth, now);
        self.deadlines.pause = None;
        self.deadlines.wake = Some(scan);
        self.interrupts = self.interrupts.restart_acquisition();
        self
    }

    fn pause_of(self) -> Duration
        ensures { result ≡ C.pause_of self }
    {
        pause_length(wake_up_pause(self.registers[OPERATION]), pauses())
    }

    #[tactic(auto, unfolding(crate::specs::Mode::pause_end))]
    fn pause_end(self, now: Time) -> Option<Time>
        ensures { result ≡ C.pause_end self now }
    {
        self.automatic().then(|| now.plus(self.pause_of()))
    }

    fn fall_asleep(&mut self, now: Time)
        ensures { self.new ≡ C.pause self.old now }
    {
        let end = self.pause_end(now);
        self.frame = self.frame.released();
        self.sampling = self.sampling.hold(now, self.kept.input);
        self.sampling.asleep = true;
        self.deadlines.wake = None;
        self.deadlines.pause = end;
    }

    pub fn pause(mut self, now: Time) -> Sensor
        ensures { result ≡ C.pause self now }
    {
        self.fall_asleep(now);
        self
    }

    // The interrupt pin: automatic mode holds it, or new data or a criterion shows.
    #[tactic(auto, unfolding(crate::specs::Mode::interrupt, deadlines::specs::Deadlines::is_set))]
    pub fn interrupt(self) -> bool
        ensures { result ≡ C.interrupt self }
    {
        self.deadlines.irq_hold.is_some() || self.shows_new_data() || self.criterion()
    }

    // Whether a scan of new data shows.
    #[tactic(auto, unfolding(crate::specs::Mode::shows_new_data))]
    fn shows_new_data(self) -> bool
        ensures { result ≡ C.shows_new_data self }
    {
        self.sampling.data_ready && has(self.registers[OPERATION], NEW_DATA_INT)
    }

    // Whether a criterion shows.
    pub fn criterion(self) -> bool
        ensures { result ≡ C.criterion self }
    {
        self.interrupts.output(self.registers)
    }

    #[tactic(auto, unfolding(crate::specs::Mode::pause_restarted, deadlines::specs::Deadlines::is_set))]
    fn restart_pause(&mut self, now: Time)
        ensures { self.new ≡ C.pause_restarted self.old now }
    {
        if pauses_again(self.sampling.asleep, self.deadlines.pause.is_some()) {
            self.fall_asleep(now);
        }
    }

    #[tactic(auto, unfolding(crate::specs::Mode::interrupt_held))]
    fn hold_interrupt(&mut self, now: Time, was_criterion: bool)
        ensures { self.new ≡ C.interrupt_held self.old now was_criterion }
    {
        let latch = has(self.registers[OPERATION], LATCH_INT);
        if holds(was_criterion, latch, self.criterion()) {
            let end = now.plus(Duration::from_micros(330));
            self.deadlines.irq_hold = Some(end);
        }
    }

    fn verifying(self) -> bool
        ensures { result ≡ C.verifies self }
    {
        self.interrupts.verifying(self.registers)
    }

    #[tactic(auto, unfolding(crate::specs::Record::tests, deadlines::specs::Deadlines::is_set))]
    fn activity(self) -> Activity
        ensures { result ≡ C.activity self }
    {
        Activity {
            asleep: self.sampling.asleep,
            waking: self.deadlines.wake.is_some(),
            testing: self.sampling.test.is_some(),
            copying: self.is_copying(),
            writing: self.is_writing(),
            acquired: self.sampling.acquired(),
            interrupt: self.interrupt(),
            verifying: self.verifying(),
        }
    }

    fn may_sleep(self, verify: bool) -> bool
        ensures { result ≡ C.may_sleep self verify }
    {
        may_pause(verify, self.activity())
    }

    #[tactic(auto, unfolding(crate::specs::Mode::pause_if_idle))]
    fn pause_if_idle(&mut self, now: Time, verify: bool)
        ensures { self.new ≡ C.pause_if_idle self.old now verify }
    {
        if self.may_sleep(verify) {
            self.fall_asleep(now);
        }
    }

    fn leave_automatic(&mut self)
        ensures { self.new ≡ C.automatic_off self.old }
    {
        self.deadlines.irq_hold = None;
        self.deadlines.pause = None;
    }

    #[tactic(auto, unfolding(crate::specs::Mode::automatic_control))]
    pub fn automatic_control(mut self, now: Time, was_criterion: bool, verify: bool) -> Sensor
        ensures { result ≡ C.automatic_control self now was_criterion verify }
    {
        if self.automatic() {
            self.restart_pause(now);
            self.hold_interrupt(now, was_criterion);
            self.pause_if_idle(now, verify);
        } else {
            self.leave_automatic();
        }
        self
    }

    fn reloaded(mut self) -> Sensor
        ensures { result ≡ C.reloaded self }
    {
        self.registers = reset_registers();
        self.i2c = State::new();
        self.interrupts = Interrupts::new();
        self.copy_image()
    }

    fn quieted(mut self, now: Time) -> Sensor
        ensures { result ≡ C.quieted self now }
    {
        let end = now.plus(Duration::from_micros(10));
        self.frame = self.frame.sending(None).released();
        self.reads = self.reads.forget();
        self.sampling = cleared(self.sampling, now);
        self.deadlines.irq_hold = None;
        self.deadlines.image = None;
        self.deadlines.quiet = Some(end);
        self
    }

    pub fn soft_reset(self, now: Time) -> Sensor
        ensures { result ≡ C.soft_reset self now }
    {
        let ready = reset_time(self.sampling.asleep);
        self.reloaded().quieted(now).start_acquisition(now, ready)
    }
}
