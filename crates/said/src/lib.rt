// What was said of each key: the last value, and the number or flag that it stands for.
#![tactic(auto)]

pub mod said;
