// What stored answers of the Rust are compared with: nothing is asked of Measure, Read or Message here.
#![tactic(auto)]

pub mod dumps;
pub mod judged;
