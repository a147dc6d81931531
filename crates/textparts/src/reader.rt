//! A text that is read line by line, and each line piece by piece.
ghost use Rattle.std.specs.Prelude.{◌≡◌, ◌+◌, ◌-◌, ◌^◌, ◌<◌, ◌≤◌, true, ◌||◌, ◌∷◌, [], length, take, drop, nat_le, IfSome, IfNone, MatchOption};
ghost use Rattle.textparts.specs.declared.bytes.Class.TheVariants.{InLine};
ghost use Rattle.textparts.specs.Bytes.{has, each};
ghost use Rattle.textparts.specs.Laws.{ends, gap, opens, closes, LineIn, PieceIn};
ghost use Rattle.textparts.specs.Spans.{lines};
ghost use Rattle.textparts.specs.Tokens.{pieces, hashed};

use crate::bytes::Class;
use crate::part::{Part, Piece};

// Do the bytes begin with `#`?
fn is_remark(bytes: &[u8]) -> bool
    ensures { result ≡ hashed bytes.now }
{
    bytes.first() == Some(&b'#')
}

/// A text whose lines are asked for one after the other. The next line begins at `next`.
#[derive(Drop)]
pub struct Reader<'a> {
    text: &'a [u8],
    next: usize,
    ghost within: { next ≤ length text.now },
    ghost lined: { (opens ends text.now next || nat_le (length text.now) next) ≡ true },
}

impl<'a> Reader<'a> {
    ghost use Rattle.textparts.specs.View.{line_of, text_of, to_come, left, whole_text};

    /// A reader before the first line.
    pub fn new(text: &'a [u8]) -> Reader<'a>
        ensures of_text { text_of result ≡ text.now }
        ensures all_lines { to_come result ≡ lines 0 text.now }
    {
        Reader { text, next: 0 }
    }

    /// The next line, of which no piece has been asked for.
    pub fn next_line(&mut self) -> Option<Line<'a>>
        ensures steps { MatchOption result (to_come self.old ≡ [])
            (λ l. to_come self.old ≡ line_of l ∷ to_come self.new) }
        ensures end { IfNone result (to_come self.new ≡ []) }
        ensures fresh { IfSome result (λ l. left l ≡ pieces (line_of l).place (line_of l).bytes) }
        ensures law { IfSome result (λ l. LineIn (text_of self.old) (line_of l)) }
        ensures of_text { IfSome result (λ l. whole_text l ≡ text_of self.old) }
        ensures same_text { text_of self.new ≡ text_of self.old }
    {
        if self.next == self.text.len() {
            return None;
        }
        let start = self.next;
        let end = start + Class::InLine.run(&self.text[start..]);
        self.next = self.text.len().min(end + 1);
        Some(Line {
            text: self.text,
            start,
            at: start,
            end,
        })
    }
}

/// A line of a text, from `start` to `end`, whose pieces are asked for one after the other. What is
/// left of it begins at `at`.
// Places and no slices: what is promised of a line and of its pieces is about their places in the text, which a slice doesn't know.
#[derive(Drop)]
pub struct Line<'a> {
    text: &'a [u8],
    start: usize,
    at: usize,
    end: usize,
    ghost begun: { start ≤ at },
    ghost order: { at ≤ end },
    ghost inside: { end ≤ length text.now },
    // the rest of the line runs to the line's end, and no word is cut in two at `at`
    ghost whole: { each (has InLine) (take (end - at) (drop at text.now)) ≡ true },
    ghost ended: { closes ends text.now end ≡ true },
    ghost uncut: { (opens gap text.now at || closes gap text.now at) ≡ true },
}

impl<'a> Line<'a> {
    ghost use Rattle.textparts.specs.View.{span_of, token_of, line_of, whole_text, left};

    /// The part of the text that the line is.
    pub fn part(&self) -> Part<'a>
        ensures value { span_of result ≡ line_of self.now }
        ensures fits { result.place + length result.bytes.now < 2 ^ 64 }
    {
        Part {
            place: self.start,
            bytes: &self.text[self.start..self.end],
        }
    }

    /// The next piece of the line.
    pub fn next_piece(&mut self) -> Option<Piece<'a>>
        ensures steps { MatchOption result (left self.old ≡ [])
            (λ p. left self.old ≡ token_of p ∷ left self.new) }
        ensures end { IfNone result (left self.new ≡ []) }
        ensures law { IfSome result (λ p. PieceIn (whole_text self.old) (token_of p)) }
        ensures same_line { line_of self.new ≡ line_of self.old }
        ensures same_text { whole_text self.new ≡ whole_text self.old }
    {
        let rest = &self.text[self.at..self.end];
        let skipped = Class::Space.run(rest);
        let place = self.at + skipped;
        let found = &rest[skipped..];
        if self.at == self.start && is_remark(found) {
            self.at = self.end;
            return Some(Piece::Remark(Part {
                place,
                bytes: found,
            }));
        }
        let n = Class::InWord.run(found);
        if n == 0 {
            return None;
        }
        self.at = place + n;
        let word = Part {
            place,
            bytes: &found[..n],
        };
        Some(Piece::told(word))
    }
}
