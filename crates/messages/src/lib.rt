// Messages written into a lent buffer: first how much room is left, then the bytes.
#![tactic(auto)]

pub mod rooms;
pub mod writes;
