// The records of a script as numbers, and numbers as bytes.
#![tactic(auto)]

pub mod bytes;
pub mod entries;
pub mod expectations;
