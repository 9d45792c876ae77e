// Replays stored answers of the Rust. Standard input has a case a line. `measure`, six numbers (the refusal's number or 0, its line, entries, items,
// expectations, store bytes) and the text in hex: Measure is asked, and what it answers is compared with the numbers. `read` and what dumped.rt
// says: Read is asked, and what it leaves is compared. `judged` and what judged.rt says: Message is asked, and its verdict and message are
// compared. Said is how many texts were read and refused by Measure as the Rust did, how many were left by Read as the Rust has them, how many expectations
// were judged as the Rust does, and how many cases were wrong.
#![tactic(auto)]

ghost use Rattle.std.specs.Prelude.{◌≡◌, ◌≤◌, length};
ghost use Rattle.cases.specs.Cases.{total};
ghost use Rattle.replay_script.specs.Answers.{read_replayed, judged_replayed, line_replayed};
ghost use Rattle.replay_script.specs.Tallies.{all_counted};

mod dumped;
mod judged;
mod measured;

use cases::{Case, Tally};
use fields::rest::Rest;
use lines::lines::Lines;
use std::io;
use std::io::Read;

// What follows the word `read`.
#[tactic(auto, unfolding(crate::specs::Answers::read_replayed))]
fn replay_read(rest: Rest<'_>) -> Case
    ensures { result ≡ read_replayed rest.entry.line.now rest.entry.at }
{
    if dumped::agrees(rest) {
        return Case::Dumped;
    }
    Case::Wrong
}

// What follows the word `judged`.
#[tactic(auto, unfolding(crate::specs::Answers::judged_replayed))]
fn replay_judged(rest: Rest<'_>) -> Case
    ensures { result ≡ judged_replayed rest.entry.line.now rest.entry.at }
{
    if judged::agrees(rest) {
        return Case::Judged;
    }
    Case::Wrong
}

#[tactic(auto, unfolding(crate::specs::Answers::line_replayed), using(text::proofs::LiteralLaws::spells_as))]
fn replay_line(line: &[u8]) -> Case
    ensures { result ≡ line_replayed line.now }
{
    let (word, rest) = Rest { line, at: 0 }.word();
    if text::parts::same(word, b"measure") {
        return measured::replay_measure(rest);
    }
    if text::parts::same(word, b"read") {
        return replay_read(rest);
    }
    if text::parts::same(word, b"judged") {
        return replay_judged(rest);
    }
    Case::Wrong
}

fn replay_all(input: &[u8]) -> Tally
    requires { length input.now ≤ 0x100000 }
    ensures value { result ≡ all_counted input.now }
    ensures result_bound { total result ≤ 0x100000 }
{
    let mut tally = Tally {
        read: 0,
        refused: 0,
        dumped: 0,
        judged: 0,
        wrong: 0,
    };
    for line in Lines::new(input) {
        tally = tally.with(replay_line(&input[line.start..line.end]));
    }
    tally
}

// An input that does not fit is not replayed to its end: that is one case wrong.
fn with_unread(input: &mut impl Read, tally: Tally) -> io::Result<Tally>
    requires { total tally ≤ 0x100000 }
{
    let mut beyond = [0u8; 1];
    if inputs::read_full(input, &mut beyond)? == 0 {
        return Ok(tally);
    }
    Ok(tally.with(Case::Wrong))
}

// A room for the input, made apart: a proof that has it at hand looks at each of its bytes.
fn room() -> [u8; 0x100000] {
    [0u8; 0x100000]
}

fn main(rt: HostRuntime) -> io::Result<()> {
    let mut stdin = rt.stdin();
    let mut input = room();
    let n = inputs::read_full(&mut stdin, &mut input)?;
    let tally = with_unread(&mut stdin, replay_all(&input[..n]))?;
    println!(rt;
        "read {}\nrefused {}\ndumped {}\njudged {}\nwrong {}",
        tally.read, tally.refused, tally.dumped, tally.judged, tally.wrong
    )
}
