// The dump of Read, by which a host sees every record that was written and every one that was not; and reading again and again.
#![tactic(auto)]

pub mod answers;
pub mod bytes;
pub mod dumps;
pub mod lists;
pub mod times;
