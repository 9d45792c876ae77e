// The value that an expectation looks up: which one is meant.
#![tactic(auto)]

pub mod looked;
