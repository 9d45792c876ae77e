// A line of the sample, behind the word `judged`: 39 numbers, the matcher's number, and in hex the text, the bytes of what it is judged against, and the
// message. The numbers are 0 for the handshake or 1 for an entry, the verdict's number, the rows of the expectation and of what it is judged against, and a table of places.
ghost use Rattle.std.specs.Prelude.{◌≡◌};
ghost use Rattle.replay_script.specs.Judged.{handed_by, says, agreed};

use fields::rest::Rest;
use replayed::judged::{is_told, of_handshake, table_of};
use texts::Held;
use verdicts::handed::Handed;

// What the expectation of a line is judged against.
#[tactic(auto, unfolding(crate::specs::Judged::handed_by))]
fn handed_by(n: [u64; 39]) -> Handed
    ensures { result ≡ handed_by n }
{
    if of_handshake(n) {
        return Handed::Info(row_infos::info_of(&n[8..27]));
    }
    Handed::Response(row_responses::response_of(&n[8..27]))
}

fn is_said(n: [u64; 39], m: i64, text: &[u8], bytes: &[u8], message: &[u8]) -> bool
    ensures { result ≡ says n m text.now bytes.now message.now }
{
    let h = handed_by(n);
    let table = table_of(n);
    let mut scratch = [0u8; 256];
    let mut left = [0u8; 256];
    let held = Held {
        bytes,
        lists: &table,
    };
    let t = row_messages::message(text, &n[2..8], m, &h, held, &mut scratch, &mut left);
    is_told(t, n[1], &left, message)
}

// Whether Message says what the rest of a line does.
#[tactic(auto, unfolding(crate::specs::Judged::agreed, crate::specs::Judged::matcher_agreed, crate::specs::Judged::text_agreed, crate::specs::Judged::bytes_agreed, crate::specs::Judged::message_agreed, fields::specs::Fields::after))]
pub fn agrees(rest: Rest<'_>) -> bool
    ensures { result ≡ agreed rest.entry.line.now rest.entry.at }
{
    let mut n = [0u64; 39];
    let Some(rest) = rest.numbers(&mut n) else {
        return false;
    };
    let Some((matcher, rest)) = rest.integer() else {
        return false;
    };
    let mut text_room = [0u8; 256];
    let Some((text, rest)) = rest.bytes(&mut text_room) else {
        return false;
    };
    let mut bytes_room = [0u8; 256];
    let Some((bytes, rest)) = rest.bytes(&mut bytes_room) else {
        return false;
    };
    let mut message_room = [0u8; 256];
    let Some((message, _)) = rest.bytes(&mut message_room) else {
        return false;
    };
    is_said(
        n,
        matcher,
        &text_room[..text],
        &bytes_room[..bytes],
        &message_room[..message],
    )
}
