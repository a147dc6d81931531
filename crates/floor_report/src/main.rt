//! Reads a table text from standard input, and prints each task's name, bound and slack, or why the floor is refused.
#![tactic(auto)]

use report::report::{LONGEST_REPORT, report};
use std::io::{Read, Write};

fn main(rt: HostRuntime) -> anyhow::Result<()> {
    let mut text = Vec::new(rt.alloc());
    rt.stdin().read_to_end(&mut text)?;
    let mut page = [0u8; LONGEST_REPORT];
    let len = report(text.as_slice(), &mut page).unwrap();
    rt.stdout().write_all(&page[..len])?;
    Ok(())
}
