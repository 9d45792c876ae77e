// The search for a plain pattern.
#![tactic(auto)]

pub mod search;
