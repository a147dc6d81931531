//! Reads a table text from standard input, and prints each task and pair that it says, or why it is refused.
#![tactic(auto)]

use listing::listing;
use std::io;
use std::io::{Read, Write};

// The program of a day differs from this one in a word: each program is its own crate, and its `main` is all that it has.
fn main(rt: HostRuntime) -> io::Result<()> {
    let alloc = rt.alloc();
    let mut text = Vec::new(alloc);
    rt.stdin().read_to_end(&mut text)?;
    let out = listing(alloc, text.as_slice())?;
    rt.stdout().write_all(out.as_slice())
}
