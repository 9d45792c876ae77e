// The bytes of a value, written at the start of a lent scratch.
ghost use Rattle.std.specs.Prelude.{◌≡◌, ◌≤◌, length};
ghost use Rattle.text.specs.Base.{overlaid};
ghost use Rattle.written.specs.Writing.{Room, wrote};
ghost use Rattle.sought.specs.Values.{value_text};

use decimals::decimal::put_decimal;
use lists::joined::{put_braced, put_bracketed};
use sought::value::Value;
use texts::Held;
use written::Writer;

// Writes a value where the writer is.
#[tactic(auto, unfolding(sought::specs::Values::value_text, sought::specs::Values::value_bytes, text::specs::Literal::utf8, text::specs::Unicode::encoded), using(written::proofs::WriterLaws::wrote_none))]
pub fn write_value_at(v: Value, held: Held<'_>, w: &mut Writer<u8>)
    requires { Room (length (value_text held.bytes.now held.lists.now v)) w.old }
    ensures { w.new ≡ wrote (value_text held.entry.bytes.now held.entry.lists.now v) w.old }
{
    match v {
        Value::Missing => {}
        Value::Number(n) => put_decimal(n, w),
        Value::Text(p) => w.put(held.text_at(p)),
        Value::Unknown => w.put(b"unknown"),
        Value::Trusted => w.put(b"trusted"),
        Value::NotTrusted => w.put(b"not-trusted"),
        Value::List(r) => put_bracketed(held.bytes, held.items_at(r), w),
        Value::Features(r) => put_braced(held.bytes, held.items_at(r), w),
    }
}

// Writes a value at the start of the scratch, what is beyond it is as it was, and says how many bytes it has.
pub fn write_value(v: Value, held: Held<'_>, scratch: &mut [u8]) -> usize
    requires { length (value_text held.bytes.now held.lists.now v) ≤ length scratch.old }
    ensures value { result ≡ length (value_text held.entry.bytes.now held.entry.lists.now v) }
    ensures scratch_after { scratch.new ≡ overlaid (value_text held.entry.bytes.now held.entry.lists.now v) scratch.old }
{
    let mut w = Writer::new(scratch);
    write_value_at(v, held, &mut w);
    w.position()
}

// The same, and what is returned is the written part of that scratch.
#[tactic(auto, using(written::proofs::WrittenLaws::front_taken))]
pub fn put_value<'a>(v: Value, held: Held<'_>, scratch: &'a mut [u8]) -> &'a mut [u8]
    requires { length (value_text held.bytes.now held.lists.now v) ≤ length scratch.old }
    ensures { result.now ≡ value_text held.entry.bytes.now held.entry.lists.now v }
{
    let n = write_value(v, held, scratch);
    &mut scratch[..n]
}
