// The filter, the interrupts and the registers that these read.
use crate::formulas::{access, clocked, coded, ends, moments, torn, warm};
use crate::kind::Kind;
use crate::record::{Answer, Record, raised, signed16, truths};
use crate::stage::{advanced, rested};
use blocks::Answers;
use filter::Filter;
use interrupts::Interrupts;

#[derive(Clone, Copy)]
pub(crate) struct Leaves {
    filter: Filter,
    interrupts: Interrupts,
    registers: [u8; 62],
}

impl Leaves {
    pub(crate) fn new() -> Leaves {
        Leaves {
            filter: Filter::new(6),
            interrupts: Interrupts::new(),
            registers: [0; 62],
        }
    }

    // The window of the filter, which is kept, and a code.
    fn filtered(&mut self, filter: Filter, code: u64) -> Answer {
        self.filter = filter;
        Answer(filter.window().into(), code)
    }

    // The code of a push has bit 16 set where the window was full.
    fn pushed(&mut self, r: Record) -> Answer {
        let pushed = self.filter.push(r.a, signed16(r.x));
        let code = raised(pushed.code) | u64::from(pushed.full) << 16;
        self.filtered(pushed.filter, code)
    }

    // What the interrupts show, which are kept.
    fn shown(&mut self, next: Interrupts) -> Answer {
        self.interrupts = next;
        Answer(
            next.status().into(),
            truths(next.output(self.registers), next.verifying(self.registers)),
        )
    }

    fn register_set(&mut self, r: Record) -> Answer {
        if let Some(register) = self.registers.get_mut(usize::from(r.a)) {
            *register = r.b;
        }
        self.shown(self.interrupts)
    }

    // What a record asks of the filter.
    fn filter_answered(&mut self, r: Record) -> Answer {
        match r.kind {
            Kind::NewFilter => self.filtered(Filter::new(r.a), 0),
            Kind::Select => self.filtered(self.filter.select(r.a), 0),
            _ => self.pushed(r),
        }
    }

    // What a record asks of the interrupts.
    fn interrupts_answered(&mut self, r: Record) -> Answer {
        let (i, registers) = (self.interrupts, self.registers);
        match r.kind {
            Kind::SetRegister => self.register_set(r),
            Kind::NewInterrupts => self.shown(Interrupts::new()),
            Kind::Configure => self.shown(i.configure(registers)),
            Kind::Restart => self.shown(i.restart_acquisition()),
            Kind::Reset => self.shown(i.reset(registers)),
            Kind::Axis => self.shown(i.axis(r.a, signed16(r.x), registers)),
            Kind::Cycle => self.shown(i.cycle(r.codes(), r.a, registers, [1, 3, 5, 7])),
            Kind::Millisecond => self.shown(i.millisecond(registers)),
            _ => self.shown(i),
        }
    }

    // What a record asks, and what changes by it, a function for each part: on entry a function zeroes the space of every record that it holds by
    // value, even of a branch that is not taken.
    fn answered(&mut self, r: Record) -> Answer {
        match r.kind {
            Kind::Plus
            | Kind::Since
            | Kind::NextUnit
            | Kind::Compared
            | Kind::Millis
            | Kind::Micros => moments(r),
            Kind::Edges | Kind::Last | Kind::Next => clocked(r),
            Kind::Torn => torn(r),
            Kind::Ends => ends(r),
            Kind::Code => coded(r),
            Kind::Temperature => warm(r),
            Kind::Access => access(r),
            Kind::Rest => rested(r),
            Kind::Advance => advanced(r),
            Kind::NewFilter | Kind::Select | Kind::Push => self.filter_answered(r),
            _ => self.interrupts_answered(r),
        }
    }
}

impl Answers<32, 16> for Leaves {
    fn answer(&mut self, item: &[u8; 32]) -> [u8; 16] {
        self.answered(item.into()).bytes()
    }
}
