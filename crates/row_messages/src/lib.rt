// Message, of an expectation that comes in a row of numbers.
#![tactic(auto)]

ghost use Rattle.std.specs.Prelude.{◌≡◌, length};
ghost use Rattle.verdicts.specs.Lookup.{looked, present_bytes};
ghost use Rattle.verdicts.specs.Messages.{message};
ghost use Rattle.verdicts.specs.Held.{expected_of};
ghost use Rattle.verdicts.specs.Subjects.{held_by};
ghost use Rattle.rows.specs.Rows.{expect_row};
ghost use Rattle.told.specs.Told.{counted, unless_refused};
ghost use Rattle.row_messages.specs.Messages.{subject_told};

use script::records::Refusal;
use texts::Held;
use told::Told;
use verdicts::handed::Handed;

// The message of an expectation, by what it is judged against, at the front of the buffer; a present value at the front of the scratch. On a
// refusal both are as they were.
#[tactic(auto, using(crate::proofs::MessageLaws::row_read))]
pub fn message(
    text: &[u8],
    expectation: &[u64],
    n: i64,
    h: &Handed,
    held: Held<'_>,
    scratch: &mut [u8],
    buffer: &mut [u8],
) -> Result<Told, Refusal>
    ensures value { result ≡ subject_told text.now (expect_row expectation.now n) held.entry.bytes.now held.entry.lists.now h.now (length scratch.old) (length buffer.old) }
    ensures scratch_after { scratch.new ≡ unless_refused (subject_told text.now (expect_row expectation.now n) held.entry.bytes.now held.entry.lists.now h.now (length scratch.old) (length buffer.old)) (present_bytes (looked (held_by held.entry.bytes.now (counted held.entry.lists.now) h.now) (expected_of text.now (expect_row expectation.now n)))) scratch.old }
    ensures buffer_after { buffer.new ≡ unless_refused (subject_told text.now (expect_row expectation.now n) held.entry.bytes.now held.entry.lists.now h.now (length scratch.old) (length buffer.old)) (message (held_by held.entry.bytes.now (counted held.entry.lists.now) h.now) (expected_of text.now (expect_row expectation.now n))) buffer.old }
{
    let e = row_expects::expect_of(expectation, n);
    expect::message::message(text, e, h, held, scratch, buffer)
}
