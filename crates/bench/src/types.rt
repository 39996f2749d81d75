// What a command leaves and answers, before it is written.
use calls::types::Refusal;
use sensor::types::Viewed;
use waits::types::Report;

// What a command adds to its line.
#[derive(Clone, Copy)]
pub enum Extra {
    Reported(Option<Report>),
    Viewed(Option<Viewed>),
    Image([u8; 19]),
}

// The answer to a command: what it adds, if it adds anything, or why it is refused.
pub type Answer = Result<Option<Extra>, Refusal>;
