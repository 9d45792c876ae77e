// Judging a range of expectations: what is tried before anything is touched, and then each verdict.
#![tactic(auto)]

pub mod checks;
pub mod each;
pub mod steps;
