// Measure (script/parse.rs of the Rust).
#![tactic(auto)]

pub mod measure;
