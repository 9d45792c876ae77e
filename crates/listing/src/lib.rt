// What the program `script-list` prints.
#![tactic(auto)]

pub mod whole;
