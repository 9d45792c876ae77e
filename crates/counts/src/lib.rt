// How many items, or bytes of the store, a value takes.
#![tactic(auto)]

pub mod counts;
