// Timestamps: the number between `@` and `ms` (the number of `parse_timestamp` of script/parse.rs of the Rust).
#![tactic(auto)]

pub mod timestamps;
