// Message: one expectation of the table, judged afresh as the caller says. Functions here hold a slice of records.
ghost use Rattle.std.specs.Prelude.{◌≡◌, length};
ghost use Rattle.text.specs.Base.{◌&◌};
ghost use Rattle.verdicts.specs.Lookup.{looked, present_bytes};
ghost use Rattle.verdicts.specs.Messages.{message};
ghost use Rattle.verdicts.specs.Held.{expected_of, expect_in};
ghost use Rattle.verdicts.specs.Subjects.{held_by, parts_in};
ghost use Rattle.told.specs.Told.{counted, told_of, unless_refused};
ghost use Rattle.tell.specs.Tell.{placed, expect_at};

use crate::picks::pick;
use expect::message::message;
use script::records::{Expectation, Refusal, Script};
use script::refusals::Reason;
use texts::Held;
use told::Told;
use verdicts::handed::Handed;

// The message of the expectation at a place, counted from 0, by what it is judged against. The place is the caller's: one outside the table is refused.
// The bytes and the table come apart: the theorem `Claims.demand_one` is about this signature.
#[tactic(auto, unfolding(crate::specs::Pick::picked_at, told::specs::Told::told_of, told::specs::Told::unless_refused))]
pub fn message_at(
    text: &[u8],
    script: Script,
    expectations: &[Expectation],
    at: usize,
    h: &Handed,
    bytes: &[u8],
    lists: &[[usize; 2]],
    scratch: &mut [u8],
    buffer: &mut [u8],
) -> Result<Told, Refusal>
    ensures value { result ≡ told_of (placed expectations.now script.counts.expectations at & expect_in (length text.now) (expect_at expectations.now at)) (parts_in bytes.now (counted lists.now) h.now) (held_by bytes.now (counted lists.now) h.now) (expected_of text.now (expect_at expectations.now at)) (length scratch.old) (length buffer.old) }
    ensures scratch_after { scratch.new ≡ unless_refused result (present_bytes (looked (held_by bytes.now (counted lists.now) h.now) (expected_of text.now (expect_at expectations.now at)))) scratch.old }
    ensures buffer_after { buffer.new ≡ unless_refused result (message (held_by bytes.now (counted lists.now) h.now) (expected_of text.now (expect_at expectations.now at))) buffer.old }
{
    let e = pick(expectations, script.counts.expectations, at).ok_or(Reason::ExpectationOutside)?;
    message(text, e, h, Held { bytes, lists }, scratch, buffer)
}
