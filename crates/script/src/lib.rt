// What a script is: the records that reading leaves (script/mod.rs of the Rust), what judging is handed, and what each line of a text is.
#![tactic(auto)]

pub mod records;
pub mod refusals;
pub mod response;
pub mod roles;
