//! The line that starts a day.
ghost use Rattle.std.specs.Prelude.{◌≡◌, None};
ghost use Rattle.std.specs.Result.{result_ok};
ghost use Rattle.textparts.specs.View.{line_of, to_come, text_of, left};
ghost use Rattle.daycalls.specs.Go.{pile_named, last_pile, go_line, go_or, go_found, after_go};

use crate::call::only;
use textparts::part::Piece;
use textparts::reader::{Line, Reader};

/// The resource that a day is replayed on.
#[derive(Clone, Copy, PartialEq, Eq, Debug)]
pub enum Pile {
    /// An empty way cache of 8 ways.
    Cache,
    /// Row banks, all closed.
    Banks,
    /// The pair of both.
    Both,
    /// The pair with its lowest two ways hidden.
    Reserved,
}

/// A line that starts a day: its place, and the resource that it names, if it names one.
#[derive(Clone, Copy)]
pub struct Go {
    pub place: usize,
    pub pile: Option<Pile>,
}

/// A word that names no resource.
#[derive(Clone, Copy, PartialEq, Eq, Debug)]
pub struct UnknownPile;

impl TryFrom<&[u8]> for Pile {
    type Error = UnknownPile;

    ghost try_from_gives = { λ word r. result_ok r ≡ pile_named word.now };

    fn try_from(word: &[u8]) -> Result<Pile, UnknownPile> {
        match word {
            b"cache" => Ok(Pile::Cache),
            b"banks" => Ok(Pile::Banks),
            b"both" => Ok(Pile::Both),
            b"reserved" => Ok(Pile::Reserved),
            _ => Err(UnknownPile),
        }
    }
}

// The resource whose name is all the rest of the line.
fn last_pile(line: Line<'_>) -> Option<Pile>
    ensures { result ≡ last_pile (left line.entry) }
{
    match only(line) {
        Some(Piece::Word(word)) => Pile::try_from(word.bytes).ok(),
        _ => None,
    }
}

// The line, if it is one that starts a day.
fn go_of(mut line: Line<'_>) -> Option<Go>
    ensures { result ≡ go_or (line_of line.entry).place (go_line (left line.entry)) None }
{
    let place = line.part().place;
    match line.next_piece() {
        Some(Piece::Word(word)) if word.is(b"go") => Some(Go {
            place,
            pile: last_pile(line),
        }),
        _ => None,
    }
}

/// The first line that starts a day, if there is one; the reader then stands behind it.
pub fn find_go(reader: &mut Reader<'_>) -> Option<Go>
    ensures found { result ≡ go_found (to_come reader.old) }
    ensures later { to_come reader.new ≡ after_go (to_come reader.old) }
    ensures same_text { text_of reader.new ≡ text_of reader.old }
{
    while let Some(line) = reader.next_line() {
        let go = go_of(line);
        if go.is_some() {
            return go;
        }
    }
    None
}
