// The entries of a script, read one after another into lent tables.
#![tactic(auto)]

pub mod entries;
pub mod scripts;
