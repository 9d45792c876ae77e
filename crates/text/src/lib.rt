// The words of document 01, "Lines and words": a text is a slice of bytes, and everything above is built of these definitions. Lines and UTF-8 have crates of their own.
#![tactic(auto)]

pub mod byte;
pub mod lines;
pub mod parts;
pub mod skip;
pub mod trim;
