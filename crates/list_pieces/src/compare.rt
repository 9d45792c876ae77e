// A list as it is shown, compared with a pattern.
ghost use Rattle.std.specs.Prelude.{◌≡◌, ◌++◌};
ghost use Rattle.text.specs.Parts.{same_bytes};
ghost use Rattle.list_pieces.specs.Pieces.{row, opens};
ghost use Rattle.list_pieces.specs.Left.{left, shown};

use crate::pieces::Pieces;
use text::parts::starts_with;

// Whether a piece, and what is behind it, is the pattern, or only begins with it. The first piece comes apart from those behind, which are asked for one by one
// as long as the pattern goes on, so a `loop` takes them and no `for`.
#[tactic(auto, using(crate::proofs::OpenLaws::list_turns), unfolding(crate::specs::Pieces::row))]
pub fn opens_at<'a>(piece: &'a [u8], mut behind: Pieces<'a>, pattern: &[u8], whole: bool) -> bool
    ensures { result ≡ opens whole pattern.now (piece.now ++ row (left behind.entry)) }
{
    let mut here = piece;
    let mut rest = pattern;
    loop {
        if rest.len() < here.len() {
            return !whole && starts_with(here, rest);
        }
        if !starts_with(rest, here) {
            return false;
        }
        rest = &rest[here.len()..];
        match behind.next() {
            Some(piece) => here = piece,
            None => return rest.is_empty(),
        }
    }
}

impl<'a> Pieces<'a> {
    // Whether the list is the text.
    #[tactic(auto, unfolding(crate::specs::Pieces::opens))]
    pub fn equals(self, text: &[u8]) -> bool
        ensures { result ≡ same_bytes (shown self.entry) text.now }
    {
        opens_at(b"", self, text, true)
    }
}
