// The values that can be looked up, and which of them a field of a result means.
#![tactic(auto)]

pub mod fields;
pub mod value;
