// What each line of the preamble is.
#![tactic(auto)]

pub mod preamble;
