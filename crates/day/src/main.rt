//! Reads a day from standard input, a table text with the day's calls after it, and prints what comes of each call.
#![tactic(auto)]

use replay::replay;
use std::io;
use std::io::{Read, Write};

// The program of the listing differs from this one in a word: each program is its own crate, and its `main` is all that it has.
fn main(rt: HostRuntime) -> io::Result<()> {
    let alloc = rt.alloc();
    let mut input = Vec::new(alloc);
    rt.stdin().read_to_end(&mut input)?;
    let out = replay(alloc, input.as_slice())?;
    rt.stdout().write_all(out.as_slice())
}
