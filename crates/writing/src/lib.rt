// How much room is left of a lent slice, and the laws of what is written into it.
#![tactic(auto)]

pub mod room;
