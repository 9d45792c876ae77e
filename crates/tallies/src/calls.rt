// What a call of Judge or Close answers.
use crate::tally::Outcome;

// Judged, or what closing says. A call that is refused answers with its refusal.
#[derive(Clone, Copy, PartialEq, Eq)]
pub enum Answer {
    Judged,
    Closed(Outcome),
}
