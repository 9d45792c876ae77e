// A value that was looked up, written at the start of a lent scratch: first how much room it leaves, then its bytes.
#![tactic(auto)]

pub mod put;
pub mod rooms;
