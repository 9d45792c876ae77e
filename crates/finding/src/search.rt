// Looking for a pattern in a value.
ghost use Rattle.std.specs.Prelude.{◌≡◌, true, ◌+◌, ◌≤◌, length};
ghost use Rattle.verdicts.specs.Decisions as decisions;
ghost use Rattle.finding.specs.Places.{Apart, one_if_both};

// 1 where both bytes are the ones that are looked for, else 0.
fn one_if_both(first: u8, last: u8, x: u8, y: u8) -> u8
    ensures { result ≡ one_if_both first last x y }
{
    if x == first {
        if y == last { 1 } else { 0 }
    } else {
        0
    }
}

// Whether first, with last `reach` bytes behind it, stands at none of the n places from `at` on. The places are not left early, so that they are
// looked at together.
#[tactic(auto, using(crate::proofs::PlaceLaws::apart_none, crate::proofs::PlaceLaws::apart_more))]
fn apart(s: &[u8], first: u8, last: u8, reach: usize, at: usize, n: usize) -> bool
    requires { at + reach + n ≤ length s.now }
    ensures { result ≡ true → Apart first last reach s.now at (at + n) }
{
    let mut seen: u8 = 0;
    for i in at..at + n {
        seen |= one_if_both(first, last, s[i], s[i + reach]);
    }
    seen == 0
}

// A place up to which first, with last `reach` bytes behind it, does not stand from `at` on: n places at a time. Each call's n is a
// constant, so that the compiler makes a loop for each.
#[tactic(auto, using(crate::proofs::PlaceLaws::apart_steps))]
fn skip_steps(s: &[u8], first: u8, last: u8, reach: usize, at: usize, n: usize) -> usize
    requires le_n { 1 ≤ n }
    requires reach_in_bounds { at + reach ≤ length s.now }
    ensures lower_bound { at ≤ result }
    ensures reach_in_bounds_2 { result + reach ≤ length s.now }
    ensures apart { Apart first last reach s.now at result }
{
    let mut i = at;
    // No `step_by` or `windows`: where it stops is the answer.
    while n <= s.len() - (i + reach) {
        if apart(s, first, last, reach, i, n) {
            i += n;
        } else {
            return i;
        }
    }
    i
}

// The same. Many places are the fastest together; where they cannot be passed by, fewer are, and at last each by itself: the caller would try the
// whole pattern there.
#[tactic(auto, using(crate::proofs::PlaceLaws::apart_then))]
fn skip_apart(s: &[u8], first: u8, last: u8, reach: usize, at: usize) -> usize
    requires { at + reach ≤ length s.now }
    ensures lower_bound { at ≤ result }
    ensures reach_in_bounds { result + reach ≤ length s.now }
    ensures apart { Apart first last reach s.now at result }
{
    let far = skip_steps(s, first, last, reach, at, 64);
    let near = skip_steps(s, first, last, reach, far, 16);
    skip_steps(s, first, last, reach, near, 1)
}

// Whether the bytes of the pattern stand somewhere in the value. Only places where its first and its last byte stand are tried, and the end of the
// value, where it has no room. There is one call of skip_apart, so that it is compiled in line.
#[tactic(auto, using(crate::proofs::ContainsLaws::walk))]
pub fn contains(value: &[u8], pattern: &[u8]) -> bool
    ensures { result ≡ decisions.contains pattern.now value.now }
{
    if pattern.len() == 0 {
        return true;
    }
    let reach = pattern.len() - 1;
    let first = pattern[0];
    let last = pattern[reach];
    let mut i: usize = 0;
    // Crate memchr's `memmem`, tried, was 0.3 to 5 times as fast: up to three times as slow.
    while i + pattern.len() <= value.len() {
        let at = skip_apart(value, first, last, reach, i);
        if text::parts::starts_with(&value[at..], pattern) {
            return true;
        }
        i = at + 1;
    }
    false
}
