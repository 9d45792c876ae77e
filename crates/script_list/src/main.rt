// The program `script-list` of document 01: what standard input has is read as a script, and its listing is printed.
#![tactic(auto)]

use std::io;

fn main(rt: HostRuntime) -> io::Result<()> {
    // one byte more than a text may have, so that one that is too long is seen to be
    let mut text = [0u8; 32769];
    let n = inputs::read_full(&mut rt.stdin(), &mut text)?;
    let mut out = [0u8; 16384];
    let printed = listing::whole::list(&text[..n], &mut out);
    rt.write_all(&out[..printed])
}
