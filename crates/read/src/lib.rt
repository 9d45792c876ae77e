// Read: a script into lent tables.
#![tactic(auto)]

pub mod reading;
