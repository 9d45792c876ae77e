// The verdict alone of an expectation, as a host calls it: the verdict's number, or the number of a reason. Nothing is written.
// The bytes and the table of lists come apart: no struct of slices goes through C.
#![tactic(auto)]

ghost use Rattle.std.specs.Prelude.{◌≡◌};
ghost use Rattle.rows.specs.Rows.{expect_row, response_row, info_row};
ghost use Rattle.verdict_exports.specs.Numbered.{entry_number, handshake_number, subject_number};

use places::expect_in;
use script::records::Expect;
use script::refusals::Reason;
use subjects::handed::{Subject, looked_value};
use texts::Held;
use told::counted_of;
use verdicts::handed::Handed;

fn number(text: &[u8], e: Expect, h: &Handed, held: Held<'_>) -> u64
    ensures { result ≡ subject_number text.now e held.entry.bytes.now held.entry.lists.now h.now }
{
    if !expect_in(text.len(), e) {
        return Reason::ExpectationOutside.number();
    }
    let held = Held {
        lists: counted_of(held.lists),
        ..held
    };
    let subject = Subject { handed: h, held };
    if !subject.parts_in() {
        return Reason::PartOutside.number();
    }
    let value = looked_value(e, text, h);
    u8::from(subject.verdict(e, value, text)) as u64
}

// Of an expectation that is judged against a response; both come in rows of numbers, as for Message.
#[unsafe(no_mangle)]
pub extern "C" fn nwscript_entry_verdict(
    text: &[u8],
    expectation: &[u64],
    n: i64,
    response: &[u64],
    bytes: &[u8],
    lists: &[[usize; 2]],
) -> u64
    ensures { result ≡ entry_number text.now (expect_row expectation.now n) bytes.now lists.now (response_row response.now) }
{
    let e = row_expects::expect_of(expectation, n);
    let h = Handed::Response(row_responses::response_of(response));
    number(text, e, &h, Held { bytes, lists })
}

// And of one that is judged against what the handshake told: a function of its own, for no enum with data goes through C.
#[unsafe(no_mangle)]
pub extern "C" fn nwscript_handshake_verdict(
    text: &[u8],
    expectation: &[u64],
    n: i64,
    information: &[u64],
    bytes: &[u8],
    lists: &[[usize; 2]],
) -> u64
    ensures { result ≡ handshake_number text.now (expect_row expectation.now n) bytes.now lists.now (info_row information.now) }
{
    let e = row_expects::expect_of(expectation, n);
    let h = Handed::Info(row_infos::info_of(information));
    number(text, e, &h, Held { bytes, lists })
}
