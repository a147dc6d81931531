//! The form of a line: what it is made of, before any word of it is looked at closely.
ghost use Rattle.std.specs.Prelude.{◌≡◌};
ghost use Rattle.textparts.specs.View.{span_of, left};
ghost use Rattle.tabletext.specs.Forms.{ended, task_words, pair_words, worded, form as form_in};
ghost use Rattle.tabletext.specs.View.{Needed, tasked, pair_ofs, formed};

use crate::fault::LineFault;
use textparts::part::{Part, Piece};
use textparts::reader::Line;

/// The pieces after `task`.
#[derive(Clone, Copy)]
pub struct TaskPieces<'a> {
    pub name: Piece<'a>,
    pub period: Piece<'a>,
    pub budget: Piece<'a>,
    pub deadline: Piece<'a>,
    pub ways: Piece<'a>,
    pub kind: Piece<'a>,
}

/// The pieces after `noleak`.
#[derive(Clone, Copy)]
pub struct PairPieces<'a> {
    pub from: Piece<'a>,
    pub to: Piece<'a>,
}

/// What a line is made of.
#[derive(Clone, Copy)]
pub enum Form<'a> {
    /// Nothing: a blank line or a remark.
    Skipped,
    /// A line of a task.
    Task(TaskPieces<'a>),
    /// A line of a pair, between two tasks by their names.
    Noleak(PairPieces<'a>),
}

// The next piece, where the line has to have one.
fn need<'a>(line: &mut Line<'a>) -> Result<Piece<'a>, LineFault>
    ensures { Needed result (left line.old) (left line.new) }
{
    line.next_piece().ok_or(LineFault::OddLine)
}

// The line, where it has to be over.
fn need_end(mut line: Line<'_>) -> Result<(), LineFault>
    ensures { result ≡ ended (left line.entry) }
{
    match line.next_piece() {
        Some(_) => Err(LineFault::OddLine),
        None => Ok(()),
    }
}

// Two functions, and not one for any number of pieces: that would fill an array by index, whose
// places need a piece to begin with, and the pieces would get their names only afterwards.
fn task_pieces<'a>(mut line: Line<'a>) -> Result<TaskPieces<'a>, LineFault>
    ensures { tasked result ≡ task_words (left line.entry) }
{
    let pieces = TaskPieces {
        name: need(&mut line)?,
        period: need(&mut line)?,
        budget: need(&mut line)?,
        deadline: need(&mut line)?,
        ways: need(&mut line)?,
        kind: need(&mut line)?,
    };
    need_end(line)?;
    Ok(pieces)
}

fn pair_pieces<'a>(mut line: Line<'a>) -> Result<PairPieces<'a>, LineFault>
    ensures { pair_ofs result ≡ pair_words (left line.entry) }
{
    let pieces = PairPieces {
        from: need(&mut line)?,
        to: need(&mut line)?,
    };
    need_end(line)?;
    Ok(pieces)
}

// The form of a line by its first word.
fn worded<'a>(word: Part<'a>, line: Line<'a>) -> Result<Form<'a>, LineFault>
    ensures { formed result ≡ worded (span_of word.entry).bytes (left line.entry) }
{
    match word.bytes {
        b"task" => Ok(Form::Task(task_pieces(line)?)),
        b"noleak" => Ok(Form::Noleak(pair_pieces(line)?)),
        _ => Err(LineFault::OddLine),
    }
}

/// The form of the rest of a line.
pub fn of_line<'a>(mut line: Line<'a>) -> Result<Form<'a>, LineFault>
    ensures { formed result ≡ form_in (left line.entry) }
{
    match line.next_piece() {
        None | Some(Piece::Remark(_)) => Ok(Form::Skipped),
        Some(Piece::Number(_, _)) => Err(LineFault::OddLine),
        Some(Piece::Word(word)) => worded(word, line),
    }
}
