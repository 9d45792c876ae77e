// Trimming: White_Space off both ends of a text, by its bytes.
#![tactic(auto)]

ghost use Rattle.std.specs.Prelude.{◌≡◌, [], ◌∷◌, reverse, ◌-◌, ◌≤◌, ◌<◌, length, get_or, take, drop};
ghost use Rattle.text.specs.Base.{within};
ghost use Rattle.text.specs.Trim.{white_bytes, backwards, size_of, trimmed_front, trimmed_back, trimmed, trim_place};

use text::trim::Place;

// The size of the White_Space character beyond ASCII that begins with a, b, c; 0 if there is none.
#[tactic(auto, unfolding(text::specs::Trim::white_bytes, text::specs::Trim::size_of, text::specs::Trim::begins, text::specs::Base::within))]
fn front_size(a: u8, b: u8, c: u8) -> usize
    ensures { result ≡ size_of (drop 2 white_bytes) (a ∷ b ∷ c ∷ []) }
{
    match (a, b, c) {
        (0xC2, 0x85 | 0xA0, _) => 2,
        (0xE1, 0x9A, 0x80)
        | (0xE2, 0x80, 0x80..=0x8A | 0xA8..=0xA9 | 0xAF)
        | (0xE2, 0x81, 0x9F)
        | (0xE3, 0x80, 0x80) => 3,
        _ => 0,
    }
}

// The size of the White_Space character beyond ASCII that ends with c, b, a; 0 if there is none.
#[tactic(auto, unfolding(text::specs::Trim::white_bytes, text::specs::Trim::backwards, text::specs::Trim::size_of, text::specs::Trim::begins, text::specs::Base::within))]
fn back_size(a: u8, b: u8, c: u8) -> usize
    ensures { result ≡ size_of (drop 2 (backwards white_bytes)) (a ∷ b ∷ c ∷ []) }
{
    match (a, b, c) {
        (0x85 | 0xA0, 0xC2, _) => 2,
        (0x80, 0x9A, 0xE1)
        | (0x80..=0x8A | 0xA8..=0xA9 | 0xAF, 0x80, 0xE2)
        | (0x9F, 0x81, 0xE2)
        | (0x80, 0x80, 0xE3) => 3,
        _ => 0,
    }
}

// 1 if a is an ASCII White_Space character, 0 if not.
#[tactic(auto, unfolding(text::specs::Trim::white_bytes, text::specs::Trim::size_of, text::specs::Trim::begins, text::specs::Base::within))]
fn ascii_size(a: u8) -> usize
    ensures { result ≡ size_of (take 2 white_bytes) (a ∷ []) }
{
    match a {
        0x09..=0x0D | 0x20 => 1,
        _ => 0,
    }
}

// The size of the White_Space character at `at`; 0 if there is none. By the place, which its callers count: they would cut a slice for each byte.
#[tactic(auto, using(text::proofs::TrimLaws::place_steps))]
pub fn white_at(s: &[u8], at: usize) -> usize
    ensures value { result ≡ size_of white_bytes (drop at s.now) }
    ensures upper_bound { result ≤ length s.now - at }
{
    if s.len() <= at {
        return 0;
    }
    let a = s[at];
    if a.is_ascii() {
        return ascii_size(a);
    }
    let b = text::byte::byte_at(s, at + 1);
    let c = text::byte::byte_at(s, at + 2);
    front_size(a, b, c)
}

// The last byte; 0 where there is none.
fn last_byte(s: &[u8]) -> u8
    ensures { result ≡ get_or (reverse s.now) 0 0 }
{
    s.last().copied().unwrap_or(0)
}

// The size of the White_Space character that s ends with; 0 if there is none.
fn white_end(s: &[u8]) -> usize
    requires { 0 < length s.now }
    ensures value { result ≡ size_of (backwards white_bytes) (reverse s.now) }
    ensures upper_bound { result ≤ length s.now }
{
    let n = s.len();
    let a = s[n - 1];
    if a.is_ascii() {
        return ascii_size(a);
    }
    let b = last_byte(&s[..n - 1]);
    let c = last_byte(&s[..n.saturating_sub(2)]);
    back_size(a, b, c)
}

// Where the White_Space at the front ends.
#[tactic(auto, using(crate::proofs::FrontEndLaws::walk), unfolding(text::specs::Trim::trimmed_front, text::specs::Trim::strip_from))]
fn front_end(s: &[u8]) -> usize
    ensures upper_bound { result ≤ length s.now }
    ensures s_value { drop result s.now ≡ trimmed_front s.now }
{
    let mut i: usize = 0;
    // No `for`: a step is as long as the character.
    while i < s.len() {
        let n = white_at(s, i);
        if n == 0 {
            return i;
        }
        i += n;
    }
    i
}

// Where the White_Space at the back begins.
#[tactic(auto, using(crate::proofs::BackStartLaws::walk), unfolding(text::specs::Trim::trimmed_back, text::specs::Trim::strip_from))]
fn back_start(s: &[u8]) -> usize
    ensures upper_bound { result ≤ length s.now }
    ensures s_value { take result s.now ≡ trimmed_back s.now }
{
    let mut i = s.len();
    // No `for`: a step is as long as the character.
    while 0 < i {
        let n = white_end(&s[..i]);
        if n == 0 {
            return i;
        }
        i -= n;
    }
    i
}

// Where the text stands, by all of White_Space. Rarely asked for, so that it is kept out of its callers.
#[inline(never)]
#[tactic(auto, using(text::proofs::TrimLaws::trim_steps))]
fn trim_wide(s: &[u8]) -> Place
    ensures { result ≡ trim_place s.now }
{
    let start = front_end(s);
    let len = back_start(&s[start..]);
    Place { start, len }
}

// A place up to which ASCII White_Space stands at the front.
#[inline(always)]
fn skip_blanks(s: &[u8]) -> usize
    ensures upper_bound { result ≤ length s.now }
    ensures s_value { trimmed_front (drop result s.now) ≡ trimmed_front s.now }
{
    s.iter()
        .position(|x| ascii_size(*x) == 0)
        .unwrap_or(s.len())
}

// Whether x is an ASCII character above the blank. Such a one is not trimmed.
#[tactic(auto, unfolding(text::specs::Base::within))]
fn is_plain(x: u8) -> bool
    ensures { result ≡ within 0x21 0x7F x }
{
    (0x21..=0x7F).contains(&x)
}

// Where the text stands once its White_Space is off both ends. Most texts have at most some blanks at the front: those need not be walked by all of
// White_Space, and this function is small enough to stand in its callers.
#[inline(always)]
#[tactic(auto, using(text::proofs::TrimLaws::trim_steps))]
pub fn trim_place(s: &[u8]) -> Place
    ensures { result ≡ trim_place s.now }
{
    let n = s.len();
    let start = skip_blanks(s);
    if start == n {
        return Place { start, len: 0 };
    }
    if is_plain(s[start]) && is_plain(s[n - 1]) {
        return Place {
            start,
            len: n - start,
        };
    }
    trim_wide(s)
}

// The text without White_Space at either end, as a part of it.
#[tactic(auto, using(text::proofs::TrimLaws::trim_steps))]
pub fn trim(s: &[u8]) -> &[u8]
    ensures { result.now ≡ trimmed s.now }
{
    let Place { start, len } = trim_place(s);
    &s[start..start + len]
}
