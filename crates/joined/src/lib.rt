// What a matcher decides of a joined list, without writing it: the list is looked at piece by piece.
#![tactic(auto)]

pub mod decide;
