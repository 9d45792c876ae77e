// Pieces of the text: spans of places that lie inside it. A piece is four words and goes through memory to a call, so that the methods asked of every line
// always stand in their callers.
ghost use Rattle.std.specs.Prelude.{◌≡◌, true, ◌+◌, ◌≤◌, ◌<◌, length, get_or, option_map, IfSome};
ghost use Rattle.text.specs.Parts.{span, starts_with, same_bytes, ends_with, position};
ghost use Rattle.script.specs.Pieces.{bytes, trim, is_empty, cut, cut_into, cut_or};
ghost use Rattle.script.specs.Inside.{In};

use text::parts::Span;

// A piece of the text.
#[derive(Clone, Copy)]
pub struct Piece<'a> {
    pub text: &'a [u8],
    pub at: Span,
    pub ghost inside: { In text.now at },
}

impl<'a> Piece<'a> {
    // The bytes that the text has there.
    #[inline(always)]
    #[tactic(auto, unfolding(script::specs::Pieces::bytes))]
    pub fn bytes(self) -> &'a [u8]
        ensures { result.now ≡ bytes self.entry.text.now self.entry.at }
    {
        &self.text[self.at.start..self.at.end]
    }

    // Whether nothing stands there.
    #[inline(always)]
    #[tactic(auto, unfolding(script::specs::Pieces::is_empty))]
    pub fn is_empty(self) -> bool
        ensures { result ≡ is_empty self.entry.at }
    {
        self.at.start == self.at.end
    }

    // The first byte, or 0 where the piece is empty.
    #[inline(always)]
    pub fn first_byte(self) -> u8
        ensures { result ≡ get_or (bytes self.entry.text.now self.entry.at) 0 0 }
    {
        text::byte::byte_at(self.bytes(), 0)
    }

    // Whether the piece begins with the word.
    #[inline(always)]
    #[tactic(auto, using(crate::proofs::PieceLaws::word_fits))]
    pub fn starts_with(self, word: &[u8]) -> bool
        ensures value { result ≡ starts_with word.now (bytes self.entry.text.now self.entry.at) }
        ensures word_bound { result ≡ true → self.entry.at.start + length word.now ≤ self.entry.at.end }
    {
        text::parts::starts_with(self.bytes(), word)
    }

    // Whether the piece is the word.
    #[inline(always)]
    pub fn is_word(self, word: &[u8]) -> bool
        ensures { result ≡ same_bytes (bytes self.entry.text.now self.entry.at) word.now }
    {
        text::parts::same(self.bytes(), word)
    }

    // Whether its last byte is b.
    #[inline(always)]
    pub fn ends_with(self, b: u8) -> bool
        ensures { result ≡ ends_with (bytes self.entry.text.now self.entry.at) b }
    {
        text::parts::ends_with(self.bytes(), b)
    }

    // The first b, counted from where the piece starts.
    pub fn find(self, b: u8) -> Option<usize>
        ensures value { result ≡ position b (bytes self.entry.text.now self.entry.at) }
        ensures inside { IfSome result (λ n. self.entry.at.start + n < self.entry.at.end) }
    {
        text::parts::find(self.bytes(), b)
    }

    // Its first n bytes.
    #[inline(always)]
    pub fn front(self, n: usize) -> Piece<'a>
        requires { self.at.start + n ≤ self.at.end }
        ensures text { result.text ≡ self.entry.text }
        ensures at { result.at ≡ span self.entry.at.start (self.entry.at.start + n) }
    {
        Piece {
            text: self.text,
            at: Span {
                start: self.at.start,
                end: self.at.start + n,
            },
        }
    }

    // What stands behind its first n bytes.
    #[inline(always)]
    pub fn behind(self, n: usize) -> Piece<'a>
        requires { self.at.start + n ≤ self.at.end }
        ensures text { result.text ≡ self.entry.text }
        ensures at { result.at ≡ span (self.entry.at.start + n) self.entry.at.end }
    {
        Piece {
            text: self.text,
            at: Span {
                start: self.at.start + n,
                end: self.at.end,
            },
        }
    }

    // The piece without the White_Space at both ends.
    #[inline(always)]
    #[tactic(auto, using(crate::proofs::PieceLaws::trim_is, crate::proofs::PieceLaws::trim_in, crate::proofs::PieceLaws::trim_end))]
    pub fn trimmed(self) -> Piece<'a>
        ensures text { result.text ≡ self.entry.text }
        ensures at { result.at ≡ trim self.entry.text.now self.entry.at }
    {
        let t = trimming::trim_place(self.bytes());
        let start = self.at.start + t.start;
        Piece {
            text: self.text,
            at: Span {
                start,
                end: start + t.len,
            },
        }
    }

    // The piece cut at the first b, which belongs to neither part.
    pub fn split_once(self, b: u8) -> Option<(Piece<'a>, Piece<'a>)>
        ensures value { option_map (λ c. cut_into c.0.at c.1.at) result ≡ cut self.entry.text.now b self.entry.at }
        ensures text { IfSome result (λ c. (c.0.text ≡ self.entry.text) × (c.1.text ≡ self.entry.text)) }
    {
        match self.find(b) {
            None => None,
            Some(n) => Some((self.front(n), self.behind(n + 1))),
        }
    }

    // The piece cut at the first b. Where there is none, all stands before it.
    #[tactic(auto, using(crate::proofs::CutLaws::all_before, crate::proofs::CutLaws::parted))]
    pub fn cut_or(self, b: u8) -> (Piece<'a>, Piece<'a>)
        ensures value { cut_into result.0.at result.1.at ≡ cut_or self.entry.text.now b self.entry.at }
        ensures before { result.0.text ≡ self.entry.text }
        ensures after { result.1.text ≡ self.entry.text }
    {
        match self.split_once(b) {
            None => (self, self.behind(self.at.end - self.at.start)),
            Some(c) => c,
        }
    }
}
