//! A part of a text, and a piece of a line.
ghost use Rattle.std.specs.Prelude.{◌≡◌};
ghost use Rattle.std.specs.Str.{bytes_eq};
ghost use Rattle.textparts.specs.Tokens.{span, told};
ghost use Rattle.textparts.specs.View.{span_of, token_of};

use crate::shapes;

/// A part of a text: its bytes, and the place of the first of them.
#[derive(Clone, Copy)]
pub struct Part<'a> {
    pub place: usize,
    pub bytes: &'a [u8],
}

impl<'a> Part<'a> {
    /// Is the part this word?
    pub fn is(self, word: &[u8]) -> bool
        ensures { result ≡ bytes_eq (span_of self.entry).bytes word.now }
    {
        self.bytes == word
    }
}

/// A piece of a line. Each case holds the part of the text that it is.
#[derive(Clone, Copy)]
pub enum Piece<'a> {
    /// A word that has not the shape of a number.
    Word(Part<'a>),
    /// A number, and its value.
    Number(Part<'a>, u32),
    /// All the rest of a line whose first word begins with `#`.
    Remark(Part<'a>),
}

impl<'a> Piece<'a> {
    /// A word of a line: a number if it has the shape of one.
    pub fn told(word: Part<'a>) -> Piece<'a>
        ensures { token_of result ≡ told (span_of word.entry) }
    {
        match shapes::number(word.bytes) {
            Some(value) => Piece::Number(word, value),
            None => Piece::Word(word),
        }
    }

    /// The part of the text that the piece is.
    pub fn part(self) -> Part<'a>
        ensures { span_of result ≡ span (token_of self.entry) }
    {
        match self {
            Piece::Word(part) | Piece::Number(part, _) | Piece::Remark(part) => part,
        }
    }
}
