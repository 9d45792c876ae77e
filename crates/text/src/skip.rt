// Looking for a byte: nearby eight places at a time, further off by crate memchr.
ghost use Rattle.std.specs.Prelude.{◌≡◌, ◌+◌, ◌≤◌, ◌<◌, true, length, get_or};
ghost use Rattle.text.specs.Skip.{Without, one_if};

// 1 for the byte b, 0 for any other.
fn one_if(b: u8, x: u8) -> u8
    ensures { result ≡ one_if b x }
{
    if x == b { 1 } else { 0 }
}

// 0 where b is none of the four bytes from `at` on. An OR, and no branches, so that they are looked at together.
#[tactic(auto, using(crate::proofs::SkipLaws::four_none))]
fn any_of_four(s: &[u8], b: u8, at: usize) -> u8
    requires { at + 4 ≤ length s.now }
    ensures { result ≡ 0 → Without b s.now at (at + 4) }
{
    one_if(b, s[at]) | one_if(b, s[at + 1]) | one_if(b, s[at + 2]) | one_if(b, s[at + 3])
}

// Whether b is none of the eight bytes from `at` on: an OR again.
#[tactic(auto, using(crate::proofs::SkipLaws::eight_none))]
fn not_in_eight(s: &[u8], b: u8, at: usize) -> bool
    requires { at + 8 ≤ length s.now }
    ensures { result ≡ true → Without b s.now at (at + 8) }
{
    (any_of_four(s, b, at) | any_of_four(s, b, at + 4)) == 0
}

// A place up to which b does not stand from `at` on, not past `near`. This, and not memchr: below 32 bytes that goes byte by byte, and took twice as long on
// short lines.
#[tactic(auto, using(crate::proofs::SkipLaws::skip_steps))]
fn skip_eights(s: &[u8], b: u8, at: usize, near: usize) -> usize
    requires at_le_near { at ≤ near }
    requires near_in_bounds { near ≤ length s.now }
    ensures lower_bound { at ≤ result }
    ensures upper_bound { result ≤ near }
    ensures without { Without b s.now at result }
{
    let mut i = at;
    while i + 8 <= near {
        if !not_in_eight(s, b, i) {
            return i;
        }
        i += 8;
    }
    i
}

// Where b first stands from `at` on, or the end, by crate memchr. Never in its callers: those would grow so large that nothing of them stands in theirs.
#[inline(never)]
#[tactic(auto, using(std::proofs::lemmas::List::take_rest, crate::proofs::SkipLaws::none_from, crate::proofs::SkipLaws::some_from))]
fn skip_far(s: &[u8], b: u8, at: usize) -> usize
    requires { at ≤ length s.now }
    ensures lower_bound { at ≤ result }
    ensures upper_bound { result ≤ length s.now }
    ensures without { Without b s.now at result }
    ensures found { result < length s.now → get_or s.now result 0 ≡ b }
{
    match memchr::memchr(b, &s[at..]) {
        Some(i) => at + i,
        None => s.len(),
    }
}

// Where b first stands from `at` on, or the end. Always in its callers: most lines and words are short, and a call takes as long as the search.
#[inline(always)]
#[tactic(auto, using(crate::proofs::SkipLaws::without_next, crate::proofs::SkipLaws::without_both))]
pub fn skip_others(s: &[u8], b: u8, at: usize) -> usize
    requires { at ≤ length s.now }
    ensures lower_bound { at ≤ result }
    ensures upper_bound { result ≤ length s.now }
    ensures without { Without b s.now at result }
    ensures found { result < length s.now → get_or s.now result 0 ≡ b }
{
    let near = s.len().min(at + 32);
    for i in skip_eights(s, b, at, near)..near {
        if s[i] == b {
            return i;
        }
    }
    // Most pieces end here: no call for these.
    if near == s.len() {
        return near;
    }
    skip_far(s, b, near)
}
