// The words of a text, between White_Space.
#![tactic(auto)]

ghost use Rattle.std.specs.Prelude.{◌≡◌, ◌<◌, length, drop};
ghost use Rattle.text.specs.Trim.{white_bytes, size_of};
ghost use Rattle.text.specs.Parts.{span};
ghost use Rattle.text.specs.Words.{word_from, word_at};

use text::parts::Span;

// Where the White_Space from `at` on ends. By the place, as `word_at`.
#[tactic(auto, using(text::proofs::WordLaws::word_steps), unfolding(text::specs::Words::word_at))]
fn skip_white(s: &[u8], at: usize) -> usize
    ensures s_value { word_from 0 result result (drop result s.now) ≡ word_at s.now at }
    ensures s_value_2 { result < length s.now → size_of white_bytes (drop result s.now) ≡ 0 }
{
    let mut i = at;
    // No `for`: a step is as long as the character.
    while i < s.len() {
        let n = trimming::white_at(s, i);
        if n == 0 {
            return i;
        }
        i += n;
    }
    i
}

// Where the word that begins at start ends.
#[tactic(auto, using(text::proofs::WordLaws::word_steps))]
fn skip_word(s: &[u8], start: usize) -> usize
    requires { start < length s.now → size_of white_bytes (drop start s.now) ≡ 0 }
    ensures { span start result ≡ word_from 0 start start (drop start s.now) }
{
    for i in start..s.len() {
        if trimming::white_at(s, i) != 0 {
            return i;
        }
    }
    start.max(s.len())
}

// The first word from `at` on; it has no bytes where there is none. By the place: both of the answer's places count from the front of s, and the next word
// is asked for from the second.
pub fn word_at(s: &[u8], at: usize) -> Span
    ensures { result ≡ word_at s.now at }
{
    let start = skip_white(s, at);
    let end = skip_word(s, start);
    Span { start, end }
}
