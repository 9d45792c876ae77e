// Numbers written into a lent slice in decimal digits, and words with a number behind them.
#![tactic(auto)]

pub mod decimal;
pub mod integer;
