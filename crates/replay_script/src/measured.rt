// A line of the sample, behind the word `measure`: the refusal's number or 0, its line, entries, items, expectations, store bytes; and the text in hex.
ghost use Rattle.std.specs.Prelude.{◌≡◌, length};
ghost use Rattle.script.specs.Reading.{measured};
ghost use Rattle.replay_script.specs.Measured.{replayed, hex_replayed, measure_replayed};

use cases::{Answer, Case, agrees};
use fields::rest::Rest;

// A text and its stored answer.
#[tactic(auto, unfolding(crate::specs::Measured::replayed))]
fn replay(text: &[u8], stored: Answer) -> Case
    ensures { result ≡ replayed (measured text.now) stored }
{
    if agrees(parse::measure::measure(text), stored) {
        if stored.number == 0 {
            return Case::Read;
        }
        return Case::Refused;
    }
    Case::Wrong
}

// A text in hex, which is decoded into the room lent, and its stored answer.
#[tactic(auto, unfolding(crate::specs::Measured::hex_replayed, crate::specs::Measured::replayed_text), using(fields::proofs::FieldLaws::byte_bound))]
fn replay_hex(hex: &[u8], room: &mut [u8], stored: Answer) -> Case
    ensures { result ≡ hex_replayed (length room.old) hex.now stored }
{
    let Some(n) = fields::bytes::decode(hex, room) else {
        return Case::Wrong;
    };
    replay(&room[..n], stored)
}

// What follows the word `measure`: six numbers, and the rest of the line is the text.
#[tactic(auto, unfolding(crate::specs::Measured::measure_replayed, fields::specs::Fields::after), using(fields::proofs::FieldLaws::rest_of))]
pub fn replay_measure(rest: Rest<'_>) -> Case
    ensures { result ≡ measure_replayed rest.entry.line.now rest.entry.at }
{
    let mut n = [0u64; 6];
    let Some(rest) = rest.numbers(&mut n) else {
        return Case::Wrong;
    };
    let stored = Answer {
        number: n[0],
        line: n[1] as usize,
        entries: n[2] as usize,
        items: n[3] as usize,
        expectations: n[4] as usize,
        store: n[5] as usize,
    };
    let mut room = [0u8; 1024];
    replay_hex(trimming::trim(&rest.line[rest.at..]), &mut room, stored)
}
