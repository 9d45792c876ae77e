// What a matcher decides of a value (document 01, "Verdicts").
#![tactic(auto)]

pub mod decide;
pub mod hosted;
