// What each matcher decides.
ghost use Rattle.std.specs.Prelude.{◌≡◌};
ghost use Rattle.verdicts.specs.Decisions.{decides};
ghost use Rattle.verdicts.specs.Expected as expected;
ghost use Rattle.verdicts.specs.Held.{matching_of};

use orders::Order;
use script::records::Matcher;
use verdicts::Verdict;

#[tactic(auto, unfolding(verdicts::specs::Decisions::decides))]
pub fn exact(text: &[u8], value: &[u8]) -> Verdict
    ensures { result ≡ decides (expected.exact text.now) value.now }
{
    orders::passed_if(text::parts::same(value, text))
}

#[tactic(auto, unfolding(verdicts::specs::Decisions::decides, verdicts::specs::Decisions::pattern_decides))]
pub fn regex(pattern: &[u8], value: &[u8]) -> Verdict
    ensures { result ≡ decides (expected.regex pattern.now) value.now }
{
    if signs::is_plain(pattern) {
        orders::passed_if(finding::search::contains(value, pattern))
    } else {
        Verdict::Undecided
    }
}

// A matcher's text stands at its place.
#[tactic(auto, unfolding(orders::specs::Orders::matching, verdicts::specs::Held::matching_of))]
pub fn decide(m: Matcher, text: &[u8], value: &[u8]) -> Verdict
    ensures { result ≡ decides (matching_of text.now m) value.now }
{
    match m {
        Matcher::Exact(p) => exact(texts::text_at(text, p), value),
        Matcher::Regex(p) => regex(texts::text_at(text, p), value),
        Matcher::GreaterThan(n) => orders::compare(Order::GreaterThan, n, value),
        Matcher::LessThan(n) => orders::compare(Order::LessThan, n, value),
        Matcher::GreaterOrEqual(n) => orders::compare(Order::GreaterOrEqual, n, value),
        Matcher::LessOrEqual(n) => orders::compare(Order::LessOrEqual, n, value),
    }
}
