// An expectation of a row.
#![tactic(auto)]

ghost use Rattle.std.specs.Prelude.{◌≡◌};
ghost use Rattle.rows.specs.Rows.{matcher_of, expect_of, expect_row};

use rows::parts::{at, place};
use script::records::{Expect, Matcher, Place};

// Kinds are numbers, since a host hands rows of numbers (the C interface); what stands behind the last kind reads as the last.
#[tactic(auto, unfolding(rows::specs::Rows::matcher_of))]
fn matcher_of(kind: u64, p: Place, n: i64) -> Matcher
    ensures { result ≡ matcher_of kind p n }
{
    match kind {
        1 => Matcher::Exact(p),
        2 => Matcher::Regex(p),
        3 => Matcher::GreaterThan(n),
        4 => Matcher::LessThan(n),
        5 => Matcher::GreaterOrEqual(n),
        _ => Matcher::LessOrEqual(n),
    }
}

#[tactic(auto, unfolding(rows::specs::Rows::expect_of))]
fn expect_by(kind: u64, p: Place, m: Matcher) -> Expect
    ensures { result ≡ expect_of kind p m }
{
    match kind {
        1 => Expect::Terminal(p),
        2 => Expect::Result(m),
        3 => Expect::ResultField(p, m),
        4 => Expect::Error(m),
        5 => Expect::StderrCount(m),
        6 => Expect::Daemon(m),
        7 => Expect::Trust(m),
        _ => Expect::ServerFeatures(m),
    }
}

// The number of a matcher comes apart, since it has a sign.
pub fn expect_of(row: &[u64], n: i64) -> Expect
    ensures { result ≡ expect_row row.now n }
{
    let p = place(at(row, 1), at(row, 2));
    let m = matcher_of(at(row, 3), place(at(row, 4), at(row, 5)), n);
    expect_by(at(row, 0), p, m)
}
