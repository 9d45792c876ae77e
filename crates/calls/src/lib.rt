// A list of calls, from the rows of numbers in which a host hands it over, and an answer as one number.
#![tactic(auto)]

pub mod answers;
pub mod handed;
