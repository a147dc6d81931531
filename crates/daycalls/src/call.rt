//! What a line asks for.
ghost use Rattle.std.specs.Prelude.{◌≡◌};
ghost use Rattle.textparts.specs.View.{span_of, left};
ghost use Rattle.daycalls.specs.Calls.{is_end, only, last_name, tick_count, worded, call_in};
ghost use Rattle.daycalls.specs.View.{spanned, piece_of, call_of, made_of};

use textparts::part::{Part, Piece};
use textparts::reader::Line;
use textparts::shapes::is_name;

/// One line of a day.
#[derive(Clone, Copy)]
pub enum Call<'a> {
    /// Nothing: a blank line or a remark.
    Skipped,
    /// A batch of the task of this name has come.
    Announce(Part<'a>),
    /// The job of the task of this name is over.
    Finish(Part<'a>),
    /// So many ticks pass.
    Ticks(u32),
    /// It is no call.
    Odd,
}

/// Is there no further piece on the line?
pub fn is_over(mut line: Line<'_>) -> bool
    ensures { result ≡ is_end (left line.entry) }
{
    line.next_piece().is_none()
}

// The piece that is all the rest of the line.
pub(crate) fn only<'a>(mut line: Line<'a>) -> Option<Piece<'a>>
    ensures { piece_of result ≡ only (left line.entry) }
{
    let piece = line.next_piece()?;
    is_over(line).then_some(piece)
}

// The name that is all the rest of the line.
fn last_name<'a>(line: Line<'a>) -> Option<Part<'a>>
    ensures { spanned result ≡ last_name (left line.entry) }
{
    match only(line) {
        Some(Piece::Word(name)) if is_name(name.bytes) => Some(name),
        _ => None,
    }
}

// How many ticks the rest of the line says: one where it says nothing.
fn tick_count(mut line: Line<'_>) -> Option<u32>
    ensures { result ≡ tick_count (left line.entry) }
{
    match line.next_piece() {
        None => Some(1),
        Some(Piece::Number(_, count)) if is_over(line) => Some(count),
        Some(_) => None,
    }
}

// The call that a line's first word and the rest of the line make.
fn worded<'a>(word: Part<'a>, line: Line<'a>) -> Option<Call<'a>>
    ensures { made_of result ≡ worded (span_of word.entry).bytes (left line.entry) }
{
    match word.bytes {
        b"announce" => Some(Call::Announce(last_name(line)?)),
        b"finish" => Some(Call::Finish(last_name(line)?)),
        b"tick" => Some(Call::Ticks(tick_count(line)?)),
        _ => None,
    }
}

/// What the rest of a line asks for.
pub fn call_of<'a>(mut line: Line<'a>) -> Call<'a>
    ensures { call_of result ≡ call_in (left line.entry) }
{
    match line.next_piece() {
        None | Some(Piece::Remark(_)) => Call::Skipped,
        Some(Piece::Number(_, _)) => Call::Odd,
        Some(Piece::Word(word)) => worded(word, line).unwrap_or(Call::Odd),
    }
}
