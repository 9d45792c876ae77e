// Pieces of the text, as the definitions speak of them: spans that lie inside it.
#![tactic(auto)]

pub mod pieces;
