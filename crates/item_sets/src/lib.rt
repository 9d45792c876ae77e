// The items of a path set and of a feature set, written into a table.
#![tactic(auto)]

ghost use Rattle.std.specs.Prelude.{◌≡◌, true, false, length, MatchOption};
ghost use Rattle.text.specs.Base.{◌&◌};
ghost use Rattle.script.specs.Pieces.{begins, ends, inner};
ghost use Rattle.script.specs.Sets.{CLOSING-BRACE, path_items};
ghost use Rattle.written.specs.Writing.{Room, wrote};
ghost use Rattle.tables.specs.Items.{items_for, items_of, features_of};
ghost use Rattle.tables.specs.SetRead.{braced_items};

use pieces::pieces::Piece;
use tables::sets::{put_place, put_places};
use tables::walks::{FilledItems, TrimmedItems, Words};
use text::parts::Span;
use written::Writer;

// Writes the items between the braces of a path set; where nothing stands there it has none. The piece is trimmed.
#[tactic(auto, using(written::proofs::WriterLaws::none_wrote, tables::proofs::ItemLaws::path_none))]
fn put_path(p: Piece<'_>, items: &mut Writer<[usize; 2]>)
    requires { Room (length (items_for (path_items p.text.now p.at))) items.old }
    ensures { items.new ≡ wrote (items_for (path_items p.entry.text.now p.entry.at)) items.old }
{
    if !p.is_empty() {
        put_places(TrimmedItems::of(p), items);
    }
}

// Writes the items of a path set behind its opening brace; none where it is not closed.
#[tactic(auto, using(written::proofs::WriterLaws::room_as, written::proofs::WriterLaws::wrote_as, written::proofs::WriterLaws::none_wrote, tables::proofs::ItemLaws::set_laws))]
fn put_braced(p: Piece<'_>, items: &mut Writer<[usize; 2]>)
    requires { Room (length (items_for (braced_items p.text.now p.at))) items.old }
    ensures { items.new ≡ wrote (items_for (braced_items p.entry.text.now p.entry.at)) items.old }
{
    if let Some(n) = p.find(b'}') {
        put_path(p.front(n).trimmed(), items);
    }
}

// Writes the items of a path set.
#[tactic(auto, using(written::proofs::WriterLaws::room_as, written::proofs::WriterLaws::wrote_as, written::proofs::WriterLaws::none_wrote, tables::proofs::ItemLaws::set_laws))]
pub fn put_set(v: Piece<'_>, items: &mut Writer<[usize; 2]>)
    requires { Room (length (items_of v.text.now v.at)) items.old }
    ensures { items.new ≡ wrote (items_of v.entry.text.now v.entry.at) items.old }
{
    let q = v.trimmed();
    if q.starts_with(b"{") {
        put_braced(q.behind(1), items);
    } else if !q.is_empty() {
        put_place(items, q.at);
    }
}

// What stands between braces, where the piece does.
#[tactic(auto, using(tables::proofs::ItemLaws::unbraced, tables::proofs::ItemLaws::by_end, tables::proofs::ItemLaws::inner_in), unfolding(script::specs::Pieces::inner))]
pub fn in_braces(q: Piece<'_>) -> Option<Piece<'_>>
    ensures { MatchOption result
        (begins q.entry.text.now "{" q.entry.at & ends q.entry.text.now q.entry.at CLOSING-BRACE ≡ false)
        (λ p. (begins q.entry.text.now "{" q.entry.at & ends q.entry.text.now q.entry.at CLOSING-BRACE ≡ true)
        × (p.text ≡ q.entry.text) × (p.at ≡ inner q.entry.at)) }
{
    if !q.starts_with(b"{") || !q.ends_with(b'}') {
        return None;
    }
    Some(Piece {
        text: q.text,
        at: Span {
            start: q.at.start + 1,
            end: q.at.end - 1,
        },
    })
}

// Writes the items of a feature set.
pub fn put_features(v: Piece<'_>, items: &mut Writer<[usize; 2]>)
    requires { Room (length (features_of v.text.now v.at)) items.old }
    ensures { items.new ≡ wrote (features_of v.entry.text.now v.entry.at) items.old }
{
    let q = v.trimmed();
    match in_braces(q) {
        Some(p) => put_places(FilledItems::of(p), items),
        None => put_places(Words::of(q), items),
    }
}
