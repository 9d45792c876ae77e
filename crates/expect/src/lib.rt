// Message: the verdict of one expectation, judged afresh, and its message (script/expect.rs).
#![tactic(auto)]

pub mod message;
