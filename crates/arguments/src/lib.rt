// What an argument line says: its key, told by a hint and one comparison, and its value.
#![tactic(auto)]

pub mod arguments;
pub mod keys;
