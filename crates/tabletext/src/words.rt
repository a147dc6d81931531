//! What each word of a line has to be: a name, a number, ways or a kind.
ghost use Rattle.std.specs.Prelude.{◌≡◌, if◌then◌else◌, Some, None};
ghost use Rattle.std.specs.Option.{ok_or};
ghost use Rattle.textparts.specs.Tokens.{span};
ghost use Rattle.textparts.specs.View.{span_of, token_of};
ghost use Rattle.tabletext.specs.declared.fault.LineFault.TheVariants.{OddWord};
ghost use Rattle.tabletext.specs.View.{spanned};
ghost use Rattle.tabletext.specs.Words.{is_ways, ways_of, is_kind, kind_of, name_word, number_word, ways_word, kind_word};

use crate::fault::LineFault;
use sets::number_set::WaySet;
use taskset::task::Kind;
use textparts::part::{Part, Piece};
use textparts::shapes;

// `ways` and `kind` are functions and no conversions: what they make are types of other crates, for which none may be written here.

/// The set of ways that rising digits 0 to 7 write; no other bytes are ways.
pub fn ways(bytes: &[u8]) -> Option<WaySet>
    ensures { result ≡ (if is_ways bytes.now then Some (ways_of bytes.now) else None) }
{
    if bytes.is_empty() {
        return None;
    }
    let mut set = WaySet::empty();
    let mut least = b'0';
    for b in bytes {
        if *b < least || *b > b'7' {
            return None;
        }
        set = set.with(*b - b'0');
        least = *b + 1;
    }
    Some(set)
}

/// The kind that a word writes.
pub fn kind(word: Part<'_>) -> Option<Kind>
    ensures { let bs = (span_of word.entry).bytes in
        result ≡ (if is_kind bs then Some (kind_of bs) else None) }
{
    match word.bytes {
        b"split" => Some(Kind::Split),
        b"whole" => Some(Kind::Whole),
        _ => None,
    }
}

// `name_word`, `number_word`, `ways_word` and `kind_word` are functions and no conversions, for the same reason as `ways` and `kind`.

/// A name is a word of the text, and stays a part of it.
pub fn name_word<'a>(piece: Piece<'a>) -> Result<Part<'a>, LineFault>
    ensures { spanned result ≡ name_word (token_of piece.entry) }
{
    match piece {
        Piece::Word(word) if shapes::is_name(word.bytes) => Ok(word),
        other => Err(LineFault::OddWord(other.part().place)),
    }
}

/// A number.
pub fn number_word(piece: Piece<'_>) -> Result<u32, LineFault>
    ensures { result ≡ number_word (token_of piece.entry) }
{
    match piece {
        Piece::Number(_, value) => Ok(value),
        other => Err(LineFault::OddWord(other.part().place)),
    }
}

// What the piece's part is read as, or that it is an odd word.
fn read_as<T, F: FnOnce(Part<'_>) -> Option<T>>(
    piece: Piece<'_>,
    reading: F,
) -> Result<T, LineFault>
    requires { F.IsAlwaysCallable reading }
    ensures { let s = span (token_of piece.entry) in
        (p : _) × (o : _) × (span_of p ≡ s) × F.post reading p o
        × (result ≡ ok_or o (OddWord s.place)) }
{
    let part = piece.part();
    reading(part).ok_or(LineFault::OddWord(part.place))
}

/// Ways.
pub fn ways_word(piece: Piece<'_>) -> Result<WaySet, LineFault>
    ensures { result ≡ ways_word (token_of piece.entry) }
{
    read_as(piece, |part| ways(part.bytes))
}

/// A kind.
pub fn kind_word(piece: Piece<'_>) -> Result<Kind, LineFault>
    ensures { result ≡ kind_word (token_of piece.entry) }
{
    read_as(piece, kind)
}
