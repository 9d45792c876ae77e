// The numbers of an expectation.
ghost use Rattle.std.specs.Prelude.{◌≡◌, ◌∷◌};
ghost use Rattle.numbers.specs.Numbers.{matcher_numbers, expect_numbers, expectation_numbers};

use crate::bytes::unsigned;
use script::records::{Expect, Expectation, Matcher, Place};

fn matcher_numbers(m: Matcher) -> [u64; 3]
    ensures { result ≡ matcher_numbers m }
{
    match m {
        Matcher::Exact(p) => [1, p.start as u64, p.len as u64],
        Matcher::Regex(p) => [2, p.start as u64, p.len as u64],
        Matcher::GreaterThan(i) => [3, unsigned(i), 0],
        Matcher::LessThan(i) => [4, unsigned(i), 0],
        Matcher::GreaterOrEqual(i) => [5, unsigned(i), 0],
        Matcher::LessOrEqual(i) => [6, unsigned(i), 0],
    }
}

// Where there is no name.
const NOWHERE: Place = Place { start: 0, len: 0 };

// The kind, the place of a name, and a matcher. Kinds are numbers here, since a host is given rows of numbers (the C interface).
fn matched(kind: u64, name: Place, m: Matcher) -> [u64; 6]
    ensures { result ≡ kind ∷ name.start ∷ name.len ∷ matcher_numbers m }
{
    let n = matcher_numbers(m);
    [kind, name.start as u64, name.len as u64, n[0], n[1], n[2]]
}

#[tactic(auto, using(crate::proofs::NumberLaws::expect_by), unfolding(call_fields::specs::CallFields::place_numbers, crate::specs::Numbers::expect_numbers))]
fn expect_numbers(e: Expect) -> [u64; 6]
    ensures { result ≡ expect_numbers e }
{
    match e {
        Expect::Terminal(p) => [1, p.start as u64, p.len as u64, 0, 0, 0],
        Expect::Result(m) => matched(2, NOWHERE, m),
        Expect::ResultField(name, m) => matched(3, name, m),
        Expect::Error(m) => matched(4, NOWHERE, m),
        Expect::StderrCount(m) => matched(5, NOWHERE, m),
        Expect::Daemon(m) => matched(6, NOWHERE, m),
        Expect::Trust(m) => matched(7, NOWHERE, m),
        Expect::ServerFeatures(m) => matched(8, NOWHERE, m),
    }
}

#[tactic(auto, using(crate::proofs::NumberLaws::expectation_is))]
pub fn expectation_numbers(x: Expectation) -> [u64; 7]
    ensures { result ≡ expectation_numbers x }
{
    let e = x.expect;
    let n = expect_numbers(e);
    [x.line as u64, n[0], n[1], n[2], n[3], n[4], n[5]]
}
