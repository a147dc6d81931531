//! A day replayed: a table text, the resource that it is started on and the calls of the day, answered line by line.
#![tactic(auto)]

ghost use Rattle.std.specs.Prelude.{◌≡◌, min, [], length, take, IfOk, OnOk};
ghost use Rattle.tabletext.specs.Read.{read_text};
ghost use Rattle.textparts.specs.View.{to_come};
ghost use Rattle.daycalls.specs.Go.{go_found, after_go};
ghost use Rattle.replay.specs.Start.{or_end, start_of, table_text, GoneOn, Replayed};

pub mod day;

use crate::day::on_pile;
use daycalls::go::{Go, find_go};
use daylines::answers::{odd, refused};
use std::alloc::{AllocError, Global};
use tabletext::text::read;
use taskset::draft::Draft;
use textparts::reader::Reader;

// The bytes of a text before a place.
fn before(text: &[u8], place: usize) -> &[u8]
    ensures { result.now ≡ take (min place (length text.now)) text.now }
{
    &text[..place.min(text.len())]
}

// Where the day starts: without a line that starts it, at the end of the input, with no resource.
fn start_of(reader: &mut Reader<'_>, end: usize) -> Go
    ensures start { result ≡ or_end (go_found (to_come reader.old)) end }
    ensures later { to_come reader.new ≡ after_go (to_come reader.old) }
{
    find_go(reader).unwrap_or(Go {
        place: end,
        pile: None,
    })
}

// The day of a table that was read. What it takes stays apart, as `on_pile` takes it.
fn go_on(
    out: &mut Vec<u8>,
    draft: &Draft,
    text: &[u8],
    reader: &mut Reader<'_>,
    go: Go,
) -> Result<(), AllocError>
    ensures { OnOk result (GoneOn out.old.items go.place go.pile out.new.items) }
{
    match go.pile {
        Some(pile) => on_pile(out, draft, text, reader, pile),
        None => odd(out, go.place),
    }
}

/// What is told of the day that the input asks for.
pub fn replay(alloc: Global, input: &[u8]) -> Result<Vec<u8>, AllocError>
    ensures { let start = start_of input.now in
        let table = read_text (table_text input.now) in
        IfOk result (λ v. Replayed start table v.items) }
{
    let mut out = Vec::new(alloc);
    let mut reader = Reader::new(input);
    let go = start_of(&mut reader, input.len());
    let text = before(input, go.place);
    let mut draft = Draft::empty();
    match read(text, &mut draft) {
        Ok(()) => go_on(&mut out, &draft, text, &mut reader, go)?,
        Err(fault) => refused(&mut out, &fault)?,
    }
    Ok(out)
}
