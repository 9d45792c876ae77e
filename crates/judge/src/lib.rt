// Judge and Close, as methods of the tally.
#![tactic(auto)]

pub mod calls;
pub mod close;
pub mod tally;
