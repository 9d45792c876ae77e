// Blank records, and tables of them, to be lent: what stands there is not looked at.
#![tactic(auto)]

ghost use Rattle.std.specs.Prelude.{◌≡◌, [], ◌∷◌, length, replicate};
ghost use Rattle.slots.specs.Blank.{blank_entry, blank_expectation};

use script::records::{Entry, Expect, Expectation, Items, OpCall, Place};
use wire::ops::Op;

pub fn blank_entry() -> Entry
    ensures { result ≡ blank_entry }
{
    Entry {
        line: 0,
        timestamp_ms: None,
        op_call: OpCall::NoArgs {
            op: Op::IsValidPath,
        },
        expects: Items { first: 0, count: 0 },
    }
}

pub fn blank_expectation() -> Expectation
    ensures { result ≡ blank_expectation }
{
    Expectation {
        line: 0,
        expect: Expect::Terminal(Place { start: 0, len: 0 }),
    }
}

pub fn blank_entries() -> [Entry; 256]
    ensures { result ≡ replicate 256 blank_entry }
{
    [blank_entry(); 256]
}

pub fn blank_items() -> [[usize; 2]; 1024]
    ensures { result ≡ replicate 1024 (0 ∷ 0 ∷ []) }
{
    [[0usize; 2]; 1024]
}

pub fn blank_expectations() -> [Expectation; 1024]
    ensures { result ≡ replicate 1024 blank_expectation }
{
    [blank_expectation(); 1024]
}

pub fn blank_store() -> [u8; 32768]
    ensures { result ≡ replicate 32768 0 }
{
    [0u8; 32768]
}

// Larger ones, for reading again and again.
pub fn many_entries() -> [Entry; 4096]
    ensures { length result ≡ 4096 }
{
    [blank_entry(); 4096]
}

pub fn many_items() -> [[usize; 2]; 16384]
    ensures { length result ≡ 16384 }
{
    [[0usize; 2]; 16384]
}

pub fn many_expectations() -> [Expectation; 4096]
    ensures { length result ≡ 4096 }
{
    [blank_expectation(); 4096]
}
