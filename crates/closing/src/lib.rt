// What is done when the last line of an entry, or of the preamble, has been read: its values are written into the lent tables, and its record is made.
#![tactic(auto)]

pub mod entry;
pub mod front;
