// The fields of a line of stored answers: words that spell numbers, and words that spell bytes in hex.
#![tactic(auto)]

pub mod bytes;
pub mod rest;
