// What each line of a text is (the line-by-line half of script/parse.rs of the Rust).
#![tactic(auto)]

pub mod argument_steps;
pub mod steps;
