// What is left of a room once a message stands there.
ghost use Rattle.std.specs.Prelude.{◌≡◌};
ghost use Rattle.writing.specs.Room.{left, less_by};
ghost use Rattle.messages.specs.Lengths.{piece_length, ending_word, ending_value, frame_length};

use decimals::integer::integer_len;
use frames::frames::{Ending, Frame, Piece};
use frames::words::{head_len, middle_len};
use texts::text_at;
use writing::room::less;

// The value has len bytes.
#[tactic(auto, using(crate::proofs::MessageLaws::less_same), unfolding(crate::specs::Lengths::piece_length))]
pub fn less_piece(
    room: Option<usize>,
    p: Piece,
    text: &[u8],
    bytes: &[u8],
    len: usize,
) -> Option<usize>
    ensures { result ≡ less_by room (piece_length text.now bytes.now len p) }
{
    match p {
        Piece::Nothing => less(room, 0),
        Piece::Text(q) => less(room, text_at(text, q).len()),
        Piece::Held(q) => less(room, text_at(bytes, q).len()),
        Piece::Value => less(room, len),
        Piece::Number(n) => less(room, integer_len(n)),
    }
}

// The word of an ending, then the value.
#[tactic(auto, using(crate::proofs::MessageLaws::ending_off), unfolding(crate::specs::Lengths::ending_word, crate::specs::Lengths::ending_value))]
pub fn less_ending(room: Option<usize>, e: Ending, len: usize) -> Option<usize>
    ensures { result ≡ less_by (less_by room (ending_word e)) (ending_value len e) }
{
    match e {
        Ending::Nothing => less(less(room, 0), 0),
        Ending::Got => less(less(room, 6), len),
        Ending::PatternGot => less(less(room, 7), len),
    }
}

#[tactic(auto, using(crate::proofs::MessageLaws::less_same, crate::proofs::MessageLaws::six_off), unfolding(crate::specs::Lengths::frame_length))]
pub fn frame_room(f: Frame, text: &[u8], bytes: &[u8], len: usize, room: usize) -> Option<usize>
    ensures { result ≡ left room (frame_length text.now bytes.now len f) }
{
    let first = f.first;
    let a = f.a;
    let second = f.second;
    let b = f.b;
    let ending = f.ending;
    let one = less(less(Some(room), head_len(first)), text_at(text, a).len());
    let two = less_piece(less(one, middle_len(second)), b, text, bytes, len);
    less_ending(two, ending, len)
}
