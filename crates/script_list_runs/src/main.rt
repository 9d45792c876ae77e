// Stored runs of `script-list`: for each file that an argument names, the name and what is printed for the file's text. The texts stand in data/, and what
// is to be printed in stdout; tools/listing-cases has both, side by side.
#![tactic(auto)]

use std::io;
use std::io::Read;

fn print_listing(rt: &impl Print, input: &mut impl Read) -> io::Result<()> {
    let mut text = [0u8; 32769];
    let n = inputs::read_full(input, &mut text)?;
    let mut out = [0u8; 16384];
    let printed = listing::whole::list(&text[..n], &mut out);
    rt.write_all(&out[..printed])
}

fn main(rt: HostRuntime) -> io::Result<()> {
    inputs::run_files(&rt, b"\n", |rt, file| print_listing(rt, file))
}
