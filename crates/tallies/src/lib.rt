// The counts of a tally: one verdict more, and what closing says of them; as definitions what Close answers.
#![tactic(auto)]

pub mod calls;
pub mod tally;
