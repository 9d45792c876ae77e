// The bytes of a message.
ghost use Rattle.std.specs.Prelude.{◌≡◌, ◌≤◌, length};
ghost use Rattle.text.specs.Base.{overlaid};
ghost use Rattle.written.specs.Writing.{Room, wrote};
ghost use Rattle.frames.specs.Frames.{piece_bytes, ending_bytes, frame_bytes};

use decimals::integer::put_integer;
use frames::frames::{Ending, Frame, Piece};
use frames::words::{head_word, middle_word};
use texts::text_at;
use written::Writer;

#[tactic(auto, unfolding(frames::specs::Frames::piece_bytes), using(written::proofs::WriterLaws::wrote_none))]
fn put_piece(p: Piece, text: &[u8], bytes: &[u8], value: &[u8], w: &mut Writer<u8>)
    requires { Room (length (piece_bytes text.now bytes.now value.now p)) w.old }
    ensures { w.new ≡ wrote (piece_bytes text.now bytes.now value.now p) w.old }
{
    match p {
        Piece::Nothing => {}
        Piece::Text(q) => w.put(text_at(text, q)),
        Piece::Held(q) => w.put(text_at(bytes, q)),
        Piece::Value => w.put(value),
        Piece::Number(n) => put_integer(n, w),
    }
}

// The end of a message: a word and the value, or nothing.
#[tactic(auto, unfolding(frames::specs::Frames::ending_bytes, text::specs::Literal::utf8, text::specs::Unicode::encoded), using(written::proofs::WriterLaws::wrote_none, crate::proofs::MessageLaws::got_room, crate::proofs::MessageLaws::got_wrote, crate::proofs::MessageLaws::pattern_room, crate::proofs::MessageLaws::pattern_wrote))]
fn put_ending(e: Ending, value: &[u8], w: &mut Writer<u8>)
    requires { Room (length (ending_bytes value.now e)) w.old }
    ensures { w.new ≡ wrote (ending_bytes value.now e) w.old }
{
    match e {
        Ending::Nothing => {}
        Ending::Got => {
            w.put(b", got ");
            w.put(value);
        }
        Ending::PatternGot => {
            w.put(b"/, got ");
            w.put(value);
        }
    }
}

// A whole message at the start of a buffer that is long enough.
#[tactic(auto, using(crate::proofs::MessageLaws::put_frame_laws))]
pub fn put_frame(f: Frame, text: &[u8], bytes: &[u8], value: &[u8], out: &mut [u8]) -> usize
    requires { length (frame_bytes text.now bytes.now value.now f) ≤ length out.old }
    ensures value { result ≡ length (frame_bytes text.now bytes.now value.now f) }
    ensures out_after { out.new ≡ overlaid (frame_bytes text.now bytes.now value.now f) out.old }
{
    let mut w = Writer::new(out);
    w.put(head_word(f.first));
    w.put(text_at(text, f.a));
    w.put(middle_word(f.second));
    put_piece(f.b, text, bytes, value, &mut w);
    put_ending(f.ending, value, &mut w);
    w.position()
}
