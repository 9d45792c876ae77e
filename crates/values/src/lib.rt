// Values that stand in a text: numbers, hex, quoted texts (document 01, "Lines and words").
#![tactic(auto)]

pub mod number;
