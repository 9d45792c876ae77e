// No code: what Measure carries from line to line, as a definition, shown to give the counts of the reading.
#![tactic(auto)]

use wire::ops::Op;

// The preamble, or an entry of that operation. No `Option`: the preamble is open as an entry is, and nothing is absent.
#[derive(Clone, Copy)]
pub enum What {
    ThePreamble,
    AnEntry(Op),
}

// What is open while the lines are walked: `inline`, the items on its opening line; `pairs`, the items of its override pairs; and for each key whose
// value takes items or bytes of the store how many the last value takes.
#[derive(Clone, Copy)]
pub struct Open {
    pub what: What,
    pub inline: usize,
    pub pairs: usize,
    pub paths: usize,
    pub refs: usize,
    pub suffix: usize,
    pub text: usize,
    pub name: usize,
    pub cam_str: usize,
    pub data: usize,
    pub raw: usize,
    pub features: usize,
    pub server_features: usize,
}
