// Stored runs of a judge that is told nothing. Of each file that an argument names the text is read as a script, its handshake is judged against an
// information that holds nothing, and the script is closed: the count of its `expect` lines and what closing says are printed. The texts stand in data/, and what is to be printed in stdout.
#![tactic(auto)]

use ran::RunError;
use std::io;
use std::io::Read;
use texts::Held;

// An answer by its number (calls/specs/CallRows.antt): a run answers its calls in numbers, as a host is given them (the C interface).
fn print_answer(rt: &impl Print, code: u64) -> io::Result<()> {
    match code {
        101 => rt.write_all(b"passed\n"),
        102 => rt.write_all(b"failed\n"),
        103 => rt.write_all(b"undecided\n"),
        104 => rt.write_all(b"nothing checked\n"),
        37 => rt.write_all(b"refused 37: an entry is not judged\n"),
        _ => rt.write_all(b"refused\n"),
    }
}

// How many lines begin with `expect`, counted by the walker and not by the reading; then what closing says.
fn run_text(rt: &impl Print, text: &[u8]) -> io::Result<()> {
    rt.print(walker::expect_lines(text))?;
    rt.write_all(b" expect lines, ")?;
    let mut handshake = [0u64; 22];
    handshake[0] = 1;
    handshake[2] = 64;
    let calls = [handshake, [0u64; 22]];
    let lists = [[0usize; 2]; 1];
    let mut verdicts = [0u8; 1024];
    let mut scratch = [0u8; 64];
    let mut answers = [0u64; 2];
    let held = Held {
        bytes: b"",
        lists: &lists,
    };
    let ran = run_alone::run_alone(
        text,
        &calls,
        held,
        &mut verdicts,
        &mut scratch,
        &mut answers,
    );
    match ran {
        Ok(_) => print_answer(rt, answers[1]),
        Err(RunError::Refused(_)) => rt.write_all(b"not read\n"),
        Err(_) => rt.write_all(b"not run\n"),
    }
}

fn run_file(rt: &impl Print, file: &mut impl Read) -> io::Result<()> {
    let mut text = [0u8; 32769];
    let n = inputs::read_full(file, &mut text)?;
    run_text(rt, &text[..n])
}

fn main(rt: HostRuntime) -> io::Result<()> {
    inputs::run_files(&rt, b": ", |rt, file| run_file(rt, file))
}
