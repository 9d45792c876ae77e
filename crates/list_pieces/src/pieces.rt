// A list as it is shown, in pieces: the word that opens it, its texts with a word between two of them, the word that closes it.
ghost use Rattle.std.specs.Prelude.{◌≡◌};
ghost use Rattle.std.specs.Iterator.{YieldsFirstRef, item_count};
ghost use Rattle.verdicts.specs.Held.{texts_in};
ghost use Rattle.list_pieces.specs.Lists.{list_text};
ghost use Rattle.list_pieces.specs.Pieces.{words};
ghost use Rattle.list_pieces.specs.Left.{left, shown};

use script::records::Items;
use texts::Held;

// The words around a list: `[` and `]`, or a brace with a blank.
#[derive(Clone, Copy)]
pub enum Style {
    Brackets,
    Braces,
}

impl Style {
    #[tactic(auto, unfolding(crate::specs::Pieces::words, text::specs::Literal::utf8, text::specs::Unicode::encoded))]
    fn opening(self) -> &'static [u8]
        ensures { result.now ≡ (words self).opening }
    {
        match self {
            Style::Brackets => b"[",
            Style::Braces => b"{ ",
        }
    }

    #[tactic(auto, unfolding(crate::specs::Pieces::words, text::specs::Literal::utf8, text::specs::Unicode::encoded))]
    fn closing(self) -> &'static [u8]
        ensures { result.now ≡ (words self).closing }
    {
        match self {
            Style::Brackets => b"]",
            Style::Braces => b" }",
        }
    }
}

// What comes next: the opening word, a text or else the closing word, a word behind a text, nothing.
#[derive(Clone, Copy)]
enum Next {
    Opening,
    Text,
    Word,
    Done,
}

// The pieces that are left, one after another; the texts are places in the bytes, which may be forged.
#[derive(Clone, Copy)]
pub struct Pieces<'a> {
    bytes: &'a [u8],
    items: &'a [[usize; 2]],
    style: Style,
    next: Next,
}

impl<'a> Pieces<'a> {
    // Of the list of a range, before the first of them.
    #[tactic(auto, using(crate::proofs::PieceLaws::in_a_row), unfolding(crate::specs::Left::left, crate::specs::Left::left_at, verdicts::specs::Held::texts_in))]
    pub fn new(held: Held<'a>, r: Items, style: Style) -> Self
        ensures { shown result ≡ list_text style (texts_in held.entry.bytes.now held.entry.lists.now r) }
    {
        Pieces {
            bytes: held.bytes,
            items: held.items_at(r),
            style,
            next: Next::Opening,
        }
    }
}

impl<'a> Iterator for Pieces<'a> {
    type Item = &'a [u8];

    ghost next_gives = { YieldsFirstRef left };

    ghost remaining = { item_count left };

    #[tactic(auto, unfolding(crate::specs::Left::left, crate::specs::Left::left_at, crate::specs::Pieces::words, crate::specs::Pieces::pieces, crate::specs::Pieces::texts_on, crate::specs::Pieces::behind, verdicts::specs::Held::item_text, text::specs::Literal::utf8, text::specs::Unicode::encoded))]
    fn next(&mut self) -> Option<&'a [u8]> {
        match self.next {
            Next::Opening => {
                self.next = Next::Text;
                Some(self.style.opening())
            }
            Next::Text => match self.items.split_first() {
                Some((item, items)) => {
                    self.items = items;
                    self.next = Next::Word;
                    Some(texts::part_of(self.bytes, item[0], item[1]))
                }
                None => {
                    self.next = Next::Done;
                    Some(self.style.closing())
                }
            },
            Next::Word => {
                if self.items.is_empty() {
                    self.next = Next::Done;
                    return Some(self.style.closing());
                }
                self.next = Next::Text;
                Some(b", ")
            }
            Next::Done => None,
        }
    }
}
