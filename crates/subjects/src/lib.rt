// What expectations are judged against, and one expectation judged against it, its value left in the scratch.
#![tactic(auto)]

pub mod handed;
pub mod one;
