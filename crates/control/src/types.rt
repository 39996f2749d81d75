// What a write does: it is ignored, begins a stored write, or is taken by its register.
#[derive(Clone, Copy, Debug, PartialEq, Eq)]
pub enum WriteKind {
    Ignored,
    Stored,
    Taken(Effect),
}

// What a register that takes a write does.
#[derive(Clone, Copy, Debug, PartialEq, Eq)]
pub enum Effect {
    Reset,
    Control,
    Measurement,
    Operation,
    Durations,
    Plain,
}

// What a write of 0a does to the self test, if it does not leave it as it is.
#[derive(Clone, Copy, Debug, PartialEq, Eq)]
pub enum SelfTest {
    Starts,
    Stops,
}

// What a write of 0a does to sleep, if it does not leave it as it is.
#[derive(Clone, Copy, Debug, PartialEq, Eq)]
pub enum Sleep {
    Wakes,
    Pauses,
}
