// Whether places lie inside; 31 speaks of an expectation's. No sum is made.
#![tactic(auto)]

ghost use Rattle.std.specs.Prelude.{◌≡◌};
ghost use Rattle.verdicts.specs.Held as Held;

use script::records::{Expect, Matcher, Place};

// A part of n bytes, or of n records. By two numbers, which a place, a range and an item of a table, three types, come to.
#[tactic(auto, unfolding(verdicts::specs::Held::inside))]
pub fn inside(n: usize, start: usize, len: usize) -> bool
    ensures { result ≡ Held.inside n start len }
{
    start <= n && len <= n - start
}

#[tactic(auto, unfolding(verdicts::specs::Held::place_in))]
pub fn place_in(n: usize, p: Place) -> bool
    ensures { result ≡ Held.place_in n p }
{
    inside(n, p.start, p.len)
}

#[tactic(auto, unfolding(verdicts::specs::Held::maybe_in))]
pub fn maybe_in(n: usize, m: Option<Place>) -> bool
    ensures { result ≡ Held.maybe_in n m }
{
    m.is_none_or(|p| place_in(n, p))
}

#[tactic(auto, unfolding(verdicts::specs::Held::matcher_in))]
pub fn matcher_in(n: usize, m: Matcher) -> bool
    ensures { result ≡ Held.matcher_in n m }
{
    match m {
        Matcher::Exact(p) | Matcher::Regex(p) => place_in(n, p),
        Matcher::GreaterThan(_)
        | Matcher::LessThan(_)
        | Matcher::GreaterOrEqual(_)
        | Matcher::LessOrEqual(_) => true,
    }
}

// Every part of an expectation lies inside a text of n bytes.
#[tactic(auto, unfolding(verdicts::specs::Held::expect_in))]
pub fn expect_in(n: usize, e: Expect) -> bool
    ensures { result ≡ Held.expect_in n e }
{
    match e {
        Expect::Terminal(p) => place_in(n, p),
        Expect::ResultField(p, m) => place_in(n, p) && matcher_in(n, m),
        Expect::Result(m)
        | Expect::Error(m)
        | Expect::StderrCount(m)
        | Expect::Daemon(m)
        | Expect::Trust(m)
        | Expect::ServerFeatures(m) => matcher_in(n, m),
    }
}
