// What an entry leaves in the items and in the store, value by value.
#![tactic(auto)]

pub mod stored_values;
