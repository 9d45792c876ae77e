// The pieces of a piece: the items between commas, and the words.
ghost use Rattle.std.specs.Prelude.{◌≡◌, Some};
ghost use Rattle.script.specs.Pieces.{words};
ghost use Rattle.script.specs.Sets.{non_empty, trimmed_items};
ghost use Rattle.tables.specs.Walks.{items_left, filled_left, words_left};

use pieces::pieces::Piece;

// The items between commas, trimmed. `left`: what is not cut yet; none behind the last item.
#[derive(Clone, Copy)]
pub struct TrimmedItems<'a> {
    left: Option<Piece<'a>>,
}

impl<'a> TrimmedItems<'a> {
    #[tactic(auto, unfolding(crate::specs::Walks::items_of_left))]
    pub fn of(p: Piece<'a>) -> TrimmedItems<'a>
        ensures { items_left result ≡ trimmed_items p.entry.text.now p.entry.at }
    {
        TrimmedItems { left: Some(p) }
    }
}

impl<'a> Iterator for TrimmedItems<'a> {
    ghost use Rattle.std.specs.Iterator.{YieldsFirstBy, item_count};
    ghost use Rattle.tables.specs.Walks.{place_of, items_left};

    type Item = Piece<'a>;

    ghost next_gives = { YieldsFirstBy place_of items_left };

    ghost remaining = { item_count items_left };

    // Always in its callers: an item may be a single byte, and a call takes longer.
    #[inline(always)]
    #[tactic(auto, using(crate::proofs::WalkLaws::items_last), unfolding(crate::specs::Walks::items_of_left))]
    fn next(&mut self) -> Option<Piece<'a>> {
        let left = self.left?;
        match left.find(b',') {
            None => {
                self.left = None;
                Some(left.trimmed())
            }
            Some(n) => {
                self.left = Some(left.behind(n + 1));
                Some(left.front(n).trimmed())
            }
        }
    }
}

// Those that are not empty.
#[derive(Clone, Copy)]
pub struct FilledItems<'a> {
    items: TrimmedItems<'a>,
}

impl<'a> FilledItems<'a> {
    pub fn of(p: Piece<'a>) -> FilledItems<'a>
        ensures { filled_left result ≡ non_empty (trimmed_items p.entry.text.now p.entry.at) }
    {
        FilledItems {
            items: TrimmedItems::of(p),
        }
    }
}

impl<'a> Iterator for FilledItems<'a> {
    ghost use Rattle.std.specs.Iterator.{YieldsFirstBy, item_count};
    ghost use Rattle.tables.specs.Walks.{place_of, filled_left};

    type Item = Piece<'a>;

    ghost next_gives = { YieldsFirstBy place_of filled_left };

    ghost remaining = { item_count filled_left };

    #[tactic(auto, using(crate::proofs::WalkLaws::filled_over, crate::proofs::WalkLaws::filled_skip, crate::proofs::WalkLaws::filled_next))]
    fn next(&mut self) -> Option<Piece<'a>> {
        // No `find`: tried; its contract tells the calls of `next` one by one, and what they leave wants an induction that the check does not find.
        while let Some(item) = self.items.next() {
            if !item.is_empty() {
                return Some(item);
            }
        }
        None
    }
}

// The words, between White_Space.
#[derive(Clone, Copy)]
pub struct Words<'a> {
    left: Piece<'a>,
}

impl<'a> Words<'a> {
    pub fn of(p: Piece<'a>) -> Words<'a>
        ensures { words_left result ≡ words p.entry.text.now p.entry.at }
    {
        Words { left: p }
    }
}

impl<'a> Iterator for Words<'a> {
    ghost use Rattle.std.specs.Iterator.{YieldsFirstBy, item_count};
    ghost use Rattle.tables.specs.Walks.{place_of, words_left};

    type Item = Piece<'a>;

    ghost next_gives = { YieldsFirstBy place_of words_left };

    ghost remaining = { item_count words_left };

    #[tactic(auto, using(crate::proofs::WalkLaws::words_over, crate::proofs::WalkLaws::word_fits, crate::proofs::WalkLaws::word_forward, crate::proofs::WalkLaws::words_next))]
    fn next(&mut self) -> Option<Piece<'a>> {
        let w = words::word_at(self.left.bytes(), 0);
        if w.start == w.end {
            return None;
        }
        let word = self.left.front(w.end).behind(w.start);
        self.left = self.left.behind(w.end);
        Some(word)
    }
}
