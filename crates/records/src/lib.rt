// The record of an entry and that of the preamble, by value: what was said so far, and how many items and bytes it takes, give the record. In code
// the parts of a record.
#![tactic(auto)]

pub mod calls;
