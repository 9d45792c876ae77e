// How much of the scratch the calls ask for.
#![tactic(auto)]

ghost use Rattle.std.specs.Prelude.{◌≡◌};
ghost use Rattle.asking.specs.Asking.{asks_more};

// Whether a call asks for more bytes of the scratch than are lent.
pub fn asks_more(calls: &[[u64; 22]], lent: usize) -> bool
    ensures { result ≡ asks_more lent calls.now }
{
    calls.iter().any(|row| (lent as u64) < row[2])
}
