// A script read and then judged by a list of calls.
#![tactic(auto)]

pub mod running;
