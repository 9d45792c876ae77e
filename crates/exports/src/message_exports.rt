// Message, as a host calls it: an expectation, a response and the handshake's information come in rows of numbers. The bytes
// and the table of lists come apart: no struct of slices goes through C.
ghost use Rattle.std.specs.Prelude.{◌≡◌, length};
ghost use Rattle.verdicts.specs.Lookup.{looked_in, told_in, present_bytes};
ghost use Rattle.verdicts.specs.Messages.{entry_message, handshake_message};
ghost use Rattle.verdicts.specs.Held.{expected_of, response_of, info_of};
ghost use Rattle.rows.specs.Rows.{expect_row, response_row, info_row};
ghost use Rattle.told.specs.Told.{counted, unless_refused};
ghost use Rattle.given.specs.Told.{refusal_of, verdict_of, length_of};
ghost use Rattle.row_messages.specs.Messages.{entry_told, handshake_told};

use row_messages::message;
use texts::Held;
use verdicts::handed::Handed;

// The message of an expectation that is judged against a response, at the front of the buffer; a present value at the front of the scratch. On a
// refusal both are as they were.
#[unsafe(no_mangle)]
pub extern "C" fn nwscript_entry_message(
    text: &[u8],
    expectation: &[u64],
    n: i64,
    response: &[u64],
    bytes: &[u8],
    lists: &[[usize; 2]],
    scratch: &mut [u8],
    buffer: &mut [u8],
    verdict: &mut u8,
    len: &mut usize,
) -> u64
    ensures value { result ≡ refusal_of (entry_told text.now (expect_row expectation.now n) bytes.now lists.now (response_row response.now) (length scratch.old) (length buffer.old)) }
    ensures verdict_after { verdict.new ≡ verdict_of (entry_told text.now (expect_row expectation.now n) bytes.now lists.now (response_row response.now) (length scratch.old) (length buffer.old)) }
    ensures len_after { len.new ≡ length_of (entry_told text.now (expect_row expectation.now n) bytes.now lists.now (response_row response.now) (length scratch.old) (length buffer.old)) }
    ensures scratch_after { scratch.new ≡ unless_refused (entry_told text.now (expect_row expectation.now n) bytes.now lists.now (response_row response.now) (length scratch.old) (length buffer.old)) (present_bytes (looked_in (response_of bytes.now (counted lists.now) (response_row response.now)) (expected_of text.now (expect_row expectation.now n)))) scratch.old }
    ensures buffer_after { buffer.new ≡ unless_refused (entry_told text.now (expect_row expectation.now n) bytes.now lists.now (response_row response.now) (length scratch.old) (length buffer.old)) (entry_message (response_of bytes.now (counted lists.now) (response_row response.now)) (expected_of text.now (expect_row expectation.now n))) buffer.old }
{
    let h = Handed::Response(row_responses::response_of(response));
    let held = Held { bytes, lists };
    let told = message(text, expectation, n, &h, held, scratch, buffer);
    given::give_told(told, verdict, len)
}

// And of one that is judged against what the handshake told: a function of its own, for no enum with data goes through C.
#[unsafe(no_mangle)]
pub extern "C" fn nwscript_handshake_message(
    text: &[u8],
    expectation: &[u64],
    n: i64,
    information: &[u64],
    bytes: &[u8],
    lists: &[[usize; 2]],
    scratch: &mut [u8],
    buffer: &mut [u8],
    verdict: &mut u8,
    len: &mut usize,
) -> u64
    ensures value { result ≡ refusal_of (handshake_told text.now (expect_row expectation.now n) bytes.now lists.now (info_row information.now) (length scratch.old) (length buffer.old)) }
    ensures verdict_after { verdict.new ≡ verdict_of (handshake_told text.now (expect_row expectation.now n) bytes.now lists.now (info_row information.now) (length scratch.old) (length buffer.old)) }
    ensures len_after { len.new ≡ length_of (handshake_told text.now (expect_row expectation.now n) bytes.now lists.now (info_row information.now) (length scratch.old) (length buffer.old)) }
    ensures scratch_after { scratch.new ≡ unless_refused (handshake_told text.now (expect_row expectation.now n) bytes.now lists.now (info_row information.now) (length scratch.old) (length buffer.old)) (present_bytes (told_in (info_of bytes.now (counted lists.now) (info_row information.now)) (expected_of text.now (expect_row expectation.now n)))) scratch.old }
    ensures buffer_after { buffer.new ≡ unless_refused (handshake_told text.now (expect_row expectation.now n) bytes.now lists.now (info_row information.now) (length scratch.old) (length buffer.old)) (handshake_message (info_of bytes.now (counted lists.now) (info_row information.now)) (expected_of text.now (expect_row expectation.now n))) buffer.old }
{
    let h = Handed::Info(row_infos::info_of(information));
    let held = Held { bytes, lists };
    let told = message(text, expectation, n, &h, held, scratch, buffer);
    given::give_told(told, verdict, len)
}
