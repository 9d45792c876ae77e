// How a text begins and ends, where a byte stands in it, and its parts between separators.
ghost use Rattle.std.specs.Prelude.{◌≡◌};
ghost use Rattle.text.specs.Parts.{starts_with, ends_with, same_bytes, position, pair_position, part_at};

// A piece of a text: from start up to, not including, end.
#[derive(Clone, Copy)]
pub struct Span {
    pub start: usize,
    pub end: usize,
}

// A part between separators: from start up to, not including, end. Where more follow, the next begins at end + 1. An `Option` of that place in the
// place of `more` would say `end + 1` twice, and its readers ask only whether.
#[derive(Clone, Copy)]
pub struct Part {
    pub start: usize,
    pub end: usize,
    pub more: bool,
}

// Whether s begins with prefix.
#[tactic(auto, using(crate::proofs::StdLaws::front_is))]
pub fn starts_with(s: &[u8], prefix: &[u8]) -> bool
    ensures { result ≡ starts_with prefix.now s.now }
{
    s.starts_with(prefix)
}

// Whether the last byte of s is b.
pub fn ends_with(s: &[u8], b: u8) -> bool
    ensures { result ≡ ends_with s.now b }
{
    s.last() == Some(&b)
}

// Whether a and b are the same bytes.
#[tactic(auto, using(crate::proofs::StdLaws::same_is))]
pub fn same(a: &[u8], b: &[u8]) -> bool
    ensures { result ≡ same_bytes a.now b.now }
{
    a == b
}

// The first place of b in s.
#[tactic(auto, using(crate::proofs::SkipLaws::found_at, crate::proofs::SkipLaws::found_nowhere))]
pub fn find(s: &[u8], b: u8) -> Option<usize>
    ensures { result ≡ position b s.now }
{
    let i = crate::skip::skip_others(s, b, 0);
    (i < s.len()).then_some(i)
}

// The first place in s of a with b after it.
pub fn find_pair(s: &[u8], a: u8, b: u8) -> Option<usize>
    ensures { result ≡ pair_position a b s.now }
{
    for (i, pair) in s.windows(2).enumerate() {
        if pair[0] == a && pair[1] == b {
            return Some(i);
        }
    }
    None
}

// The part of s that begins at `at` and ends before the next b, or where s ends.
pub fn part_at(s: &[u8], b: u8, at: usize) -> Part
    ensures { result ≡ part_at b s.now at }
{
    for i in at..s.len() {
        if s[i] == b {
            return Part {
                start: at,
                end: i,
                more: true,
            };
        }
    }
    Part {
        start: at,
        end: at.max(s.len()),
        more: false,
    }
}
