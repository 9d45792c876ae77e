// What each matcher decides of a list. Its range, and its texts, may stand anywhere.
ghost use Rattle.std.specs.Prelude.{◌≡◌};
ghost use Rattle.verdicts.specs.Decisions.{decides};
ghost use Rattle.verdicts.specs.Expected as expected;
ghost use Rattle.verdicts.specs.Held.{matching_of, texts_in};
ghost use Rattle.list_pieces.specs.Left.{shown};
ghost use Rattle.list_pieces.specs.Lists.{list_text};

use list_pieces::pieces::{Pieces, Style};
use script::records::{Items, Matcher};
use texts::{Held, text_at};
use verdicts::Verdict;

#[tactic(auto, unfolding(verdicts::specs::Decisions::decides))]
fn exact(text: &[u8], list: Pieces<'_>) -> Verdict
    ensures { result ≡ decides (expected.exact text.now) (shown list.entry) }
{
    orders::passed_if(list.equals(text))
}

#[tactic(auto, unfolding(verdicts::specs::Decisions::decides, verdicts::specs::Decisions::pattern_decides))]
fn regex(pattern: &[u8], list: Pieces<'_>) -> Verdict
    ensures { result ≡ decides (expected.regex pattern.now) (shown list.entry) }
{
    if signs::is_plain(pattern) {
        return orders::passed_if(list_search::contains(pattern, list));
    }
    Verdict::Undecided
}

// A matcher's text stands at its place. A list is no number, so it passes no order.
#[tactic(auto, using(list_pieces::proofs::PieceLaws::no_number), unfolding(verdicts::specs::Held::matching_of, verdicts::specs::Decisions::decides, verdicts::specs::Decisions::ordered))]
pub fn decide_list(m: Matcher, text: &[u8], style: Style, r: Items, held: Held<'_>) -> Verdict
    ensures { result ≡ decides (matching_of text.now m) (list_text style (texts_in held.entry.bytes.now held.entry.lists.now r)) }
{
    let list = Pieces::new(held, r, style);
    match m {
        Matcher::Exact(p) => exact(text_at(text, p), list),
        Matcher::Regex(p) => regex(text_at(text, p), list),
        Matcher::GreaterThan(_) => Verdict::Failed,
        Matcher::LessThan(_) => Verdict::Failed,
        Matcher::GreaterOrEqual(_) => Verdict::Failed,
        Matcher::LessOrEqual(_) => Verdict::Failed,
    }
}
