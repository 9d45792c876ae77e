// The lines of a listing: what is printed, and each line written.
#![tactic(auto)]

pub mod lines;
