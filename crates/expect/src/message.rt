// Message: one expectation, judged afresh.
ghost use Rattle.std.specs.Prelude.{◌≡◌, length};
ghost use Rattle.verdicts.specs.Lookup.{looked, present_bytes};
ghost use Rattle.verdicts.specs.Messages.{message};
ghost use Rattle.verdicts.specs.Held.{expected_of, expect_in};
ghost use Rattle.verdicts.specs.Subjects.{held_by, parts_in};
ghost use Rattle.frames.specs.Frames.{frame_bytes};
ghost use Rattle.sought.specs.Values.{value_text};
ghost use Rattle.expect.specs.ExpectRead.{no_value};
ghost use Rattle.told.specs.Told.{counted, told_of, framed_as, unless_refused};

use frames::frames::Frame;
use message_frames::message_frame;
use messages::rooms::frame_room;
use messages::writes::put_frame;
use scratch::put::write_value;
use scratch::rooms::value_room;
use script::records::{Expect, Refusal};
use script::refusals::Reason;
use sought::value::Value;
use subjects::handed::{Subject, looked_value};
use texts::Held;
use told::{Told, counted_of};
use verdicts::Verdict;
use verdicts::handed::Handed;

#[tactic(auto, unfolding(crate::specs::ExpectRead::no_value))]
fn is_missing(v: Value) -> bool
    ensures { result ≡ no_value v }
{
    matches!(v, Value::Missing)
}

// Writes a value and a message, once it is known that both fit, the value first.
fn tell(
    f: Frame,
    v: Verdict,
    value: Value,
    text: &[u8],
    held: Held<'_>,
    scratch: &mut [u8],
    buffer: &mut [u8],
) -> Result<Told, Refusal>
    ensures value { result ≡ framed_as v (length (value_text held.entry.bytes.now held.entry.lists.now value)) (length (frame_bytes text.now held.entry.bytes.now (value_text held.entry.bytes.now held.entry.lists.now value) f)) (length scratch.old) (length buffer.old) }
    ensures scratch_after { scratch.new ≡ unless_refused result (value_text held.entry.bytes.now held.entry.lists.now value) scratch.old }
    ensures buffer_after { buffer.new ≡ unless_refused result (frame_bytes text.now held.entry.bytes.now (value_text held.entry.bytes.now held.entry.lists.now value) f) buffer.old }
{
    let left = value_room(value, held, scratch.len()).ok_or(Reason::ValueTooLong)?;
    let long = scratch.len() - left;
    frame_room(f, text, held.bytes, long, buffer.len()).ok_or(Reason::MessageTooLong)?;
    let n = write_value(value, held, scratch);
    let len = put_frame(f, text, held.bytes, &scratch[..n], buffer);
    Ok(Told { verdict: v, len })
}

// The message of an expectation, by what it is judged against.
pub fn message(
    text: &[u8],
    e: Expect,
    h: &Handed,
    held: Held<'_>,
    scratch: &mut [u8],
    buffer: &mut [u8],
) -> Result<Told, Refusal>
    ensures value { result ≡ told_of (expect_in (length text.now) e) (parts_in held.entry.bytes.now (counted held.entry.lists.now) h.now) (held_by held.entry.bytes.now (counted held.entry.lists.now) h.now) (expected_of text.now e) (length scratch.old) (length buffer.old) }
    ensures scratch_after { scratch.new ≡ unless_refused result (present_bytes (looked (held_by held.entry.bytes.now (counted held.entry.lists.now) h.now) (expected_of text.now e))) scratch.old }
    ensures buffer_after { buffer.new ≡ unless_refused result (message (held_by held.entry.bytes.now (counted held.entry.lists.now) h.now) (expected_of text.now e)) buffer.old }
{
    if !places::expect_in(text.len(), e) {
        return Err(Refusal::from(Reason::ExpectationOutside));
    }
    let held = Held {
        bytes: held.bytes,
        lists: counted_of(held.lists),
    };
    let subject = Subject { handed: h, held };
    if !subject.parts_in() {
        return Err(Refusal::from(Reason::PartOutside));
    }
    let value = looked_value(e, text, h);
    let v = subject.verdict(e, value, text);
    let f = message_frame(e, is_missing(value), v, h);
    tell(f, v, value, text, held, scratch, buffer)
}
