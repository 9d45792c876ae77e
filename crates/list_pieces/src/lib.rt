// The pieces of a joined list, and a list compared with a text piece by piece.
#![tactic(auto)]

pub mod compare;
pub mod pieces;
