// Timestamps: the number between `@` and `ms`.
ghost use Rattle.std.specs.Prelude.{◌≡◌, true, ◌+◌, ◌*◌, ◌^◌, ◌≤◌, length};
ghost use Rattle.values.specs.Numbers.{all_digits, decimal_from};
ghost use Rattle.script.specs.Timestamps.{run, digit_run, fraction, unsigned, negative, no_finite, some_digits, exponent};
ghost use Rattle.script.specs.Timestamps as definition;

use script::records::Time;
use script::refusals::Reason;

// The digits at the front, and what follows them.
fn digit_run(s: &[u8]) -> (&[u8], &[u8])
    ensures { run result.0.now result.1.now ≡ digit_run s.now }
{
    for i in 0..s.len() {
        if !s[i].is_ascii_digit() {
            return (&s[..i], &s[i..]);
        }
    }
    (s, &[])
}

// The same behind a dot, if there is one.
#[tactic(auto, unfolding(script::specs::Timestamps::fraction))]
fn fraction(s: &[u8]) -> (&[u8], &[u8])
    ensures { run result.0.now result.1.now ≡ fraction s.now }
{
    match s {
        [b'.', rest @ ..] => digit_run(rest),
        _ => (&[], s),
    }
}

// The number that the digits spell, after those that spelled `before`: all of them together are at most 18.
#[tactic(auto, using(crate::proofs::SpeltLaws::spelt_steps), unfolding(values::specs::Numbers::decimal_from))]
fn spelt(digits: &[u8], before: u64) -> u64
    requires all { all_digits digits.now ≡ true }
    requires room { (before + 1) * 10 ^ length digits.now ≤ 10 ^ 18 }
    ensures { result ≡ decimal_from before digits.now }
{
    let mut number = before;
    for x in digits {
        number = number * 10 + u64::from(x - b'0');
    }
    number
}

// Whether s is `inf`, `infinity` or `nan`.
fn no_finite(s: &[u8]) -> bool
    ensures { result ≡ no_finite s.now }
{
    s.eq_ignore_ascii_case(b"inf")
        || s.eq_ignore_ascii_case(b"infinity")
        || s.eq_ignore_ascii_case(b"nan")
}

// What stands behind the sign, if there is one in front.
#[tactic(auto, unfolding(script::specs::Timestamps::unsigned))]
fn behind_sign(s: &[u8]) -> &[u8]
    ensures { result.now ≡ unsigned s.now }
{
    match s {
        [b'+' | b'-', rest @ ..] => rest,
        _ => s,
    }
}

// Whether s is digits, and at least one.
fn some_digits(s: &[u8]) -> bool
    ensures { result ≡ some_digits s.now }
{
    let (digits, rest) = digit_run(s);
    !digits.is_empty() && rest.is_empty()
}

// Whether s is an exponent.
#[tactic(auto, unfolding(script::specs::Timestamps::exponent, script::specs::Timestamps::small, text::specs::Base::within))]
fn is_exponent(s: &[u8]) -> bool
    ensures { result ≡ exponent s.now }
{
    match s {
        [b'e' | b'E', more @ ..] => some_digits(behind_sign(more)),
        _ => false,
    }
}

// Whether s begins with a minus.
#[tactic(auto, unfolding(script::specs::Timestamps::negative))]
fn is_negative(s: &[u8]) -> bool
    ensures { result ≡ negative s.now }
{
    s.first() == Some(&b'-')
}

// The time that s spells. NoF64: no f64 to Rust; NotCarried: an f64 to Rust, but not carried.
#[tactic(auto, using(std::proofs::lemmas::Bool::Decides::nat_tests), unfolding(script::specs::Timestamps::carried, script::specs::Timestamps::time, values::specs::Numbers::decimal_from))]
pub fn time(s: &[u8]) -> Result<Time, Reason>
    ensures { result ≡ definition.time s.now }
{
    let unsigned = behind_sign(s);
    if no_finite(unsigned) {
        return Err(Reason::NotCarried);
    }
    let (whole, behind) = digit_run(unsigned);
    let (decimals, rest) = fraction(behind);
    let count = whole.len() + decimals.len();
    if count == 0 {
        return Err(Reason::NoF64);
    }
    if !rest.is_empty() {
        if is_exponent(rest) {
            return Err(Reason::NotCarried);
        }
        return Err(Reason::NoF64);
    }
    if 18 < count {
        return Err(Reason::NotCarried);
    }
    Ok(Time {
        negative: is_negative(s),
        digits: spelt(decimals, spelt(whole, 0)),
        decimals: decimals.len() as i64,
    })
}
