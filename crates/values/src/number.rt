// Decimal numbers, as Rust's `parse` reads them.
ghost use Rattle.std.specs.Prelude.{◌≡◌, ◌+◌};
ghost use Rattle.values.specs.Numbers.{digits, number, signed};

// The number that the digits spell, if it is at most `max`.
#[tactic(auto, using(crate::proofs::NumberLaws::digits_up_to_laws))]
fn digits_up_to(s: &[u8], max: u64) -> Option<u64>
    ensures { result ≡ digits (max + 1) s.now }
{
    if s.is_empty() {
        return None;
    }
    let mut v: u64 = 0;
    for x in s {
        if !x.is_ascii_digit() {
            return None;
        }
        v = v.checked_mul(10)?.checked_add(u64::from(x - b'0'))?;
        if max < v {
            return None;
        }
    }
    Some(v)
}

// Rust's `parse` of an unsigned type whose largest number is `max`.
#[tactic(auto, using(std::proofs::lemmas::List::take_rest), unfolding(crate::specs::Numbers::digits, crate::specs::Numbers::number))]
pub fn parse_up_to(s: &[u8], max: u64) -> Option<u64>
    ensures { result ≡ number (max + 1) s.now }
{
    match s {
        [b'+', rest @ ..] => digits_up_to(rest, max),
        _ => digits_up_to(s, max),
    }
}

#[tactic(auto, using(crate::proofs::ParseI64Laws::parse_i64_steps), unfolding(crate::specs::Numbers::signed, crate::specs::Numbers::minus, crate::specs::Numbers::number))]
pub fn parse_i64(s: &[u8]) -> Option<i64>
    ensures { result ≡ signed s.now }
{
    match s {
        [b'-', rest @ ..] => 0i64.checked_sub_unsigned(digits_up_to(rest, 1 << 63)?),
        _ => Some(parse_up_to(s, i64::MAX as u64)? as i64),
    }
}
