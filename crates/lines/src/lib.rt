// The lines of a text.
#![tactic(auto)]

pub mod lines;
