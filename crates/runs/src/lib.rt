// A list of calls, one after another, on the tables of a script.
#![tactic(auto)]

pub mod calling;
