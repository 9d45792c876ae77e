// What goes over the wire to the daemon.
// ops.rs: the 37 operations, their codes and their names.
#![tactic(auto)]

pub mod ops;
