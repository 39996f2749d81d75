// What the calls answer.
ghost use Rattle.std.specs.Prelude.{◌≡◌, IsOkAnd, MatchResult};
ghost use Rattle.std.specs.Result.{ForOk};
ghost use Rattle.std.specs.declared.result.Result.TheVariants.{Ok, Err};
ghost use Rattle.calls.specs.Table as Table;

use crate::host::Bma150;
use calls::types::Refusal;

// The sensor that a call leaves, and its answer: what an accepted call gives, or why it is refused.
#[derive(Clone, Copy)]
pub struct Replied<T> {
    pub sensor: Bma150,
    pub answer: Result<T, Refusal>,
}

impl<T> Replied<T> {
    // Another answer of an accepted call; the sensor and a refusal stay.
    #[tactic(auto, unfolding(calls::specs::Table::number))]
    pub(crate) fn map<U, F: FnOnce(T) -> U>(self, f: F) -> Replied<U>
        requires { ForOk self.answer (F.pre f) }
        ensures cases { MatchResult self.answer (λ x. IsOkAnd result.answer (F.post f x)) (λ why. result.answer ≡ Err why) }
        ensures number { Table.number result.answer ≡ Table.number self.answer }
        ensures sensor { result.sensor ≡ self.sensor }
    {
        Replied {
            sensor: self.sensor,
            answer: self.answer.map(f),
        }
    }
}
