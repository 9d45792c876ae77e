// Looking for a pattern in a list as it is shown, without writing it: piece by piece.
#![tactic(auto)]

ghost use Rattle.std.specs.Prelude.{◌≡◌, ◌+◌, ◌≤◌, ◌<◌, ◌++◌, length};
ghost use Rattle.text.specs.Base.{◌or◌};
ghost use Rattle.verdicts.specs.Decisions as decisions;
ghost use Rattle.list_pieces.specs.Left.{shown};

use list_pieces::compare::opens_at;
use list_pieces::pieces::Pieces;
use text::skip::skip_others;

// The first place of a piece of len bytes from which a pattern of n bytes would go on in the pieces behind.
fn tail_of(len: usize, n: usize) -> usize
    requires { 0 < n }
    ensures upper_bound { result ≤ len }
    ensures n_bound { 0 < result → result + n ≤ len + 1 }
{
    if n <= len {
        return (len - n) + 1;
    }
    0
}

// Whether the pattern stands at some byte of a piece; it may go on in the pieces behind. It is looked for in the piece as in any value; of the places
// where it would go on, only those where its first byte stands are tried. `skip_others` finds the next of them, eight bytes at once, so no `for` does.
#[tactic(auto, using(crate::proofs::FindLaws::piece_begun, crate::proofs::FindLaws::piece_later, crate::proofs::FindLaws::piece_other, crate::proofs::FindLaws::piece_turns))]
pub fn found_in<'a>(piece: &'a [u8], behind: Pieces<'a>, pattern: &[u8]) -> bool
    requires { 0 < length pattern.now }
    ensures { decisions.contains pattern.now (piece.now ++ shown behind.entry) ≡ result or decisions.contains pattern.now (shown behind.entry) }
{
    if finding::search::contains(piece, pattern) {
        return true;
    }
    let first = pattern[0];
    let from = tail_of(piece.len(), pattern.len());
    let mut i = skip_others(piece, first, from);
    while i < piece.len() {
        if piece[i] == first && opens_at(&piece[i..], behind, pattern, false) {
            return true;
        }
        i = skip_others(piece, first, i + 1);
    }
    false
}

// Whether the pattern stands somewhere in the list. At each piece, what is behind it is asked for too, so no `for` hands out the pieces.
#[tactic(auto, using(finding::proofs::SearchLaws::empty_in, crate::proofs::FindLaws::list_here, crate::proofs::FindLaws::list_later, crate::proofs::FindLaws::list_ended), unfolding(list_pieces::specs::Pieces::row))]
pub fn contains(pattern: &[u8], list: Pieces<'_>) -> bool
    ensures { result ≡ decisions.contains pattern.now (shown list.entry) }
{
    if pattern.is_empty() {
        return true;
    }
    let mut behind = list;
    while let Some(piece) = behind.next() {
        if found_in(piece, behind, pattern) {
            return true;
        }
    }
    false
}
