// Message over the table of expectations (script/expect.rs).
#![tactic(auto)]

pub mod message;
pub mod picks;
