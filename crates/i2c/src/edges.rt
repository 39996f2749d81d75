// What a report of the two lines is. `before` and `after` go apart, as in the call that reports them.
ghost use Rattle.std.specs.Prelude.{◌≡◌};
ghost use Rattle.i2c.specs.Bus as B;

use crate::types::{Edge, Levels};

// The data line moves while the clock is high.
#[tactic(auto, unfolding(crate::specs::Bus::data_moves))]
fn data_moves(before: Levels, after: Levels) -> bool
    ensures { result ≡ B.data_moves before after }
{
    before.scl && after.scl && before.sda != after.sda
}

// The event that takes the lines from `before` to `after`. They stand apart here and above, since the call of 01 has them so.
#[tactic(auto, unfolding(crate::specs::Bus::data_moves, crate::specs::Bus::edge))]
pub fn edge(before: Levels, after: Levels) -> Edge
    ensures { result ≡ B.edge before after }
{
    if data_moves(before, after) {
        return if after.sda { Edge::Stop } else { Edge::Start };
    }
    match (before.scl, after.scl) {
        (false, true) => Edge::Rise(after.sda),
        (true, false) => Edge::Fall,
        _ => Edge::Still,
    }
}

impl Edge {
    // START or STOP.
    #[tactic(auto, unfolding(crate::specs::Bus::is_condition))]
    pub fn is_condition(self) -> bool
        ensures { result ≡ B.is_condition self }
    {
        matches!(self, Edge::Start | Edge::Stop)
    }

    // The condition that begins a transfer.
    #[tactic(auto, unfolding(crate::specs::Bus::is_start))]
    pub fn is_start(self) -> bool
        ensures { result ≡ B.is_start self }
    {
        self == Edge::Start
    }

    // The clock rises.
    #[tactic(auto, unfolding(crate::specs::Bus::is_rise))]
    pub fn is_rise(self) -> bool
        ensures { result ≡ B.is_rise self }
    {
        matches!(self, Edge::Rise(_))
    }

    // The clock falls.
    #[tactic(auto, unfolding(crate::specs::Bus::is_fall))]
    pub fn is_fall(self) -> bool
        ensures { result ≡ B.is_fall self }
    {
        self == Edge::Fall
    }

    // The data level at a rise.
    #[tactic(auto, unfolding(crate::specs::Bus::data_at))]
    pub fn data_at(self) -> bool
        ensures { result ≡ B.data_at self }
    {
        self == Edge::Rise(true)
    }
}
