// What a host is given of an answer, through lent numbers. No `requires`.
#![tactic(auto)]

ghost use Rattle.std.specs.Prelude.{◌≡◌, unwrap_or};
ghost use Rattle.std.specs.Option.{is_some};
ghost use Rattle.given.specs.Told.{refusal_of, verdict_of, length_of};

use script::records::Refusal;
use text::trim::Place;
use told::Told;

// Where a part of a text stands: two numbers, for C lends them apart.
pub fn give_place(p: Place, start: &mut usize, len: &mut usize)
    ensures start_after { start.new ≡ p.start }
    ensures len_after { len.new ≡ p.len }
{
    *start = p.start;
    *len = p.len;
}

// A value that was read goes into the place lent; else that is left alone.
pub fn give<T: Copy>(read: Option<T>, value: &mut T) -> bool
    ensures value { result ≡ is_some read }
    ensures value_after { value.new ≡ unwrap_or read value.old }
{
    match read {
        Some(v) => {
            *value = v;
            true
        }
        None => false,
    }
}

// Of the answer of Message: the refusal's number, or 0. What is lent takes the verdict's number and how many bytes the message has, which
// are 0 where it is refused.
#[tactic(auto, unfolding(crate::specs::Told::refusal_of, crate::specs::Told::verdict_of, crate::specs::Told::length_of))]
pub fn give_told(t: Result<Told, Refusal>, verdict: &mut u8, len: &mut usize) -> u64
    ensures value { result ≡ refusal_of t }
    ensures verdict_after { verdict.new ≡ verdict_of t }
    ensures len_after { len.new ≡ length_of t }
{
    match t {
        Err(r) => {
            *verdict = 0;
            *len = 0;
            r.reason.number()
        }
        Ok(told) => {
            *verdict = u8::from(told.verdict);
            *len = told.len;
            0
        }
    }
}
