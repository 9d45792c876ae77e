// Messages as fixed words and pieces: what stands in a message, before it is written.
#![tactic(auto)]

pub mod frames;
pub mod words;
