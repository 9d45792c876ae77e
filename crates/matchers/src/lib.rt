// How a line compares what it expects (`parse_matcher` of script/parse.rs of the Rust).
#![tactic(auto)]

pub mod matchers;
