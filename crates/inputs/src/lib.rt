// What the programs read: an input into a lent room, and the files that arguments name.
#![tactic(auto)]

ghost use Rattle.std.specs.Io.{ReadsAtMost};

use std::env::{Env, FillError};
use std::fs::Files;
use std::io::Read;
use std::{fs, io, str};

// Reads until the room is full or the input ends: how many bytes stand at the front of the room.
pub fn read_full(input: &mut impl Read, room: &mut [u8]) -> io::Result<usize>
    ensures { ReadsAtMost result room.new }
{
    let mut done = 0;
    // std's `read_exact` refuses a shorter input, and `read_to_end` wants a heap.
    while done < room.len() {
        let n = input.read(&mut room[done..])?;
        if n == 0 {
            break;
        }
        done += n;
    }
    Ok(done)
}

// Opens the file of a path. A path is text: other bytes name no file.
fn open_read<R: Files>(rt: &R, path: &[u8]) -> io::Result<R::File> {
    match str::from_utf8(path) {
        Ok(path) => fs::open(rt, path),
        Err(_) => Err(io::Error::from(io::ErrorKind::InvalidFilename)),
    }
}

// Runs the file of a path behind the path and a word. Why a file was not opened is said on standard error.
fn run_file<R: Files + Print + Eprint, F: Fn(&R, &mut R::File) -> io::Result<()>>(
    rt: &R,
    path: &[u8],
    behind: &[u8],
    run: &F,
) -> io::Result<()>
    requires { F.IsAlwaysCallable run.now }
{
    rt.write_all(path)?;
    rt.write_all(behind)?;
    match open_read(rt, path) {
        Ok(mut file) => run(rt, &mut file),
        Err(error) => eprintln!(rt; "{}: {error}", path.escape_ascii()),
    }
}

// Runs the file that an argument names, and says whether there is such an argument. One that the room does not take is run as an empty name.
fn run_argument<R: Env + Files + Print + Eprint, F: Fn(&R, &mut R::File) -> io::Result<()>>(
    rt: &R,
    i: usize,
    behind: &[u8],
    run: &F,
) -> io::Result<bool>
    requires { F.IsAlwaysCallable run.now }
{
    let mut path = [0u8; 4096];
    let n = match rt.arg(i, &mut path) {
        Ok(n) => n,
        Err(FillError::TooLong) => 0,
        Err(FillError::NotPresent) => return Ok(false),
    };
    run_file(rt, &path[..n], behind, run)?;
    Ok(true)
}

// Runs each file that an argument names, in their order. It promises nothing of its own: what it does is seen in the programs' stored runs alone.
pub fn run_files<R: Env + Files + Print + Eprint, F: Fn(&R, &mut R::File) -> io::Result<()>>(
    rt: &R,
    behind: &[u8],
    run: F,
) -> io::Result<()>
    requires { F.IsAlwaysCallable run }
{
    for i in 1..usize::MAX {
        if !run_argument(rt, i, behind, &run)? {
            break;
        }
    }
    Ok(())
}
