// What reading writes of one value into the table of items and into the store.
#![tactic(auto)]

pub mod sets;
pub mod walks;
