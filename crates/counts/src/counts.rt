// How many items and bytes of the store a value takes.
ghost use Rattle.std.specs.Prelude.{◌≡◌, ◌+◌, ◌≤◌, length};
ghost use Rattle.text.specs.Parts.{split};
ghost use Rattle.script.specs.Operations.{form_of};
ghost use Rattle.script.specs.Sets.{COMMA, path_items};
ghost use Rattle.tables.specs.SetRead.{braced_items};
ghost use Rattle.counts.specs.Counts.{set_count, quoted_count, data_count, raw_count, feature_count, inline_items};

use pieces::pieces::Piece;
use tables::walks::{FilledItems, Words};
use wire::ops::Op;

// How many parts stand between the commas: one more than there are commas.
#[tactic(auto, using(crate::proofs::CountLaws::parts_are), unfolding(text::specs::Parts::split))]
fn part_count(s: &[u8]) -> usize
    ensures { result ≡ length (split COMMA s.now) }
{
    s.iter().filter(|x| **x == b',').count() + 1
}

// The items between the braces of a path set; where nothing stands there it has none. The piece is trimmed.
#[tactic(auto, using(crate::proofs::CountLaws::items_none, crate::proofs::CountLaws::items_counted))]
fn path_count(p: Piece<'_>) -> usize
    ensures { result ≡ length (path_items p.entry.text.now p.entry.at) }
{
    if p.is_empty() {
        return 0;
    }
    part_count(p.bytes())
}

// The items of a path set behind its opening brace; none where it is not closed.
#[tactic(auto, using(crate::proofs::CountLaws::not_braced, crate::proofs::CountLaws::braced))]
fn braced_count(p: Piece<'_>) -> usize
    ensures { result ≡ length (braced_items p.entry.text.now p.entry.at) }
{
    match p.find(b'}') {
        None => 0,
        Some(n) => path_count(p.front(n).trimmed()),
    }
}

// The items of a path set.
pub fn set_count(v: Piece<'_>) -> usize
    ensures value { result ≡ set_count v.entry.text.now v.entry.at }
    ensures result_bound { v.entry.at.start + result ≤ v.entry.at.end }
{
    let q = v.trimmed();
    if q.starts_with(b"{") {
        return braced_count(q.behind(1));
    }
    if q.is_empty() {
        return 0;
    }
    1
}

// The items of a feature set.
pub fn feature_count(v: Piece<'_>) -> usize
    ensures value { result ≡ feature_count v.entry.text.now v.entry.at }
    ensures result_bound { v.entry.at.start + result ≤ v.entry.at.end }
{
    let q = v.trimmed();
    match item_sets::in_braces(q) {
        Some(p) => FilledItems::of(p).count(),
        None => Words::of(q).count(),
    }
}

// The bytes of a value that is unquoted.
#[tactic(auto, using(crate::proofs::CountLaws::quoted_counted, crate::proofs::CountLaws::quoted_fits))]
pub fn quoted_count(v: Piece<'_>) -> usize
    ensures value { result ≡ quoted_count v.entry.text.now v.entry.at }
    ensures result_bound { v.entry.at.start + result ≤ v.entry.at.end }
{
    unquote::unquoted_len(v.bytes())
}

// The bytes of what follows `x"`. Quotes at its end are no hex digits, so they count for nothing.
#[tactic(auto, using(crate::proofs::CountLaws::raw_counted, crate::proofs::CountLaws::hex_fits))]
pub fn raw_count(v: Piece<'_>) -> usize
    ensures value { result ≡ raw_count v.entry.text.now v.entry.at }
    ensures result_bound { v.entry.at.start + result ≤ v.entry.at.end }
{
    hexadecimal::hex_len(v.bytes())
}

// The bytes of data that stands in the store; a file's name does not.
#[tactic(auto, using(crate::proofs::CountLaws::data_counted, crate::proofs::CountLaws::no_data, crate::proofs::CountLaws::data_fits, crate::proofs::CountLaws::nothing_fits))]
pub fn data_count(v: Piece<'_>) -> usize
    ensures value { result ≡ data_count v.entry.text.now v.entry.at }
    ensures result_bound { v.entry.at.start + result ≤ v.entry.at.end }
{
    if v.starts_with(b"x\"") {
        return hexadecimal::hex_len(v.behind(2).bytes());
    }
    0
}

// The items on an opening line.
pub fn inline_items(op: Op, args: Piece<'_>) -> usize
    ensures value { result ≡ inline_items args.entry.text.now (form_of op).shape args.entry.at }
    ensures result_bound { args.entry.at.start + result ≤ args.entry.at.end }
{
    match openings::set_on(op, args) {
        None => 0,
        Some(p) => set_count(p),
    }
}
