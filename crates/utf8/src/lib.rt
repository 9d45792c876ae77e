// UTF-8, by table 3-7 of The Unicode Standard.
#![tactic(auto)]

ghost use Rattle.std.specs.Prelude.{◌≡◌};
ghost use Rattle.text.specs.Utf8.{well_formed};

use std::str;

// Whether the bytes are well-formed UTF-8.
pub fn well_formed(s: &[u8]) -> bool
    ensures { result ≡ well_formed s.now }
{
    str::from_utf8(s).is_ok()
}
