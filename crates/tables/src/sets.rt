// Items: places in the text, each two numbers of the table, its start and its length.
ghost use Rattle.std.specs.Prelude.{◌≡◌, [], ◌∷◌, ◌≤◌};
ghost use Rattle.std.specs.Iterator.{IsFinite, size};
ghost use Rattle.script.specs.Pieces.{place};
ghost use Rattle.written.specs.Writing.{Room, wrote};
ghost use Rattle.tables.specs.Items.{item_of};
ghost use Rattle.tables.specs.Walks.{PutsPlaces};

use pieces::pieces::Piece;
use text::parts::Span;
use written::Writer;

// Writes one item.
#[tactic(auto, unfolding(crate::specs::Items::item_of))]
pub fn put_place(items: &mut Writer<[usize; 2]>, p: Span)
    requires start_le_end { p.start ≤ p.end }
    requires room { Room 1 items.old }
    ensures { items.new ≡ wrote (item_of (place p) ∷ []) items.old }
{
    let q = matchers::matchers::place_of(p);
    items.put_one([q.start, q.len]);
}

// Writes two items.
#[tactic(auto, using(written::proofs::WriterLaws::pair_room, written::proofs::WriterLaws::pair_wrote))]
pub fn put_pair(items: &mut Writer<[usize; 2]>, a: Span, b: Span)
    requires start_le_end { a.start ≤ a.end }
    requires start_le_end_2 { b.start ≤ b.end }
    requires room { Room 2 items.old }
    ensures { items.new ≡ wrote (item_of (place a) ∷ item_of (place b) ∷ []) items.old }
{
    put_place(items, a);
    put_place(items, b);
}

// Writes an item for each piece.
pub fn put_places<'a, I: Iterator<Item = Piece<'a>>>(pieces: I, items: &mut Writer<[usize; 2]>)
    requires can_next { I.can_next pieces }
    requires ends { IsFinite (I.remaining pieces) }
    requires room { Room (size (I.remaining pieces)) items.old }
    ensures { PutsPlaces I.next_gives pieces items.old items.new }
{
    for piece in pieces {
        put_place(items, piece.at);
    }
}
