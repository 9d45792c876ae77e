// Which patterns are decided: those without any of the fourteen signs.
#![tactic(auto)]

ghost use Rattle.std.specs.Prelude.{◌≡◌};
ghost use Rattle.verdicts.specs.Decisions.{signs, one_of, plain};

// Whether x is one of the fourteen signs.
#[tactic(auto, unfolding(verdicts::specs::Decisions::one_of))]
fn is_sign(x: u8) -> bool
    ensures { result ≡ one_of signs x }
{
    matches!(
        x,
        b'\\'
            | b'.'
            | b'+'
            | b'*'
            | b'?'
            | b'('
            | b')'
            | b'|'
            | b'['
            | b']'
            | b'{'
            | b'}'
            | b'^'
            | b'$'
    )
}

// Whether the pattern has none of the signs.
pub fn is_plain(pattern: &[u8]) -> bool
    ensures { result ≡ plain pattern.now }
{
    !pattern.iter().any(|x| is_sign(*x))
}
