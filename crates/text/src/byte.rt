// Single bytes of a slice.
ghost use Rattle.std.specs.Prelude.{◌≡◌, get_or};
ghost use Rattle.text.specs.Base.{within};

// The byte at `at`, or 0 past the end. By the place: where a text ends, its callers look one or two bytes further, and a slice from there would have to be tested first.
pub fn byte_at(s: &[u8], at: usize) -> u8
    ensures { result ≡ get_or s.now at 0 }
{
    s.get(at).copied().unwrap_or(0)
}

// Whether x lies from lo to hi, both included.
#[tactic(auto, unfolding(crate::specs::Base::within))]
pub fn in_range(lo: u8, hi: u8, x: u8) -> bool
    ensures { result ≡ within lo hi x }
{
    (lo..=hi).contains(&x)
}
