//! The lines of a text, read one by one into a draft.
ghost use Rattle.std.specs.Prelude.{◌≡◌};
ghost use Rattle.textparts.specs.View.{span_of, line_of, left};
ghost use Rattle.tabletext.specs.Laws.{is_named};
ghost use Rattle.tabletext.specs.Lines.{outcome, find_from, unstray, fresh, known, task_line, pair_line, rest_read};
ghost use Rattle.tabletext.specs.View.{task_of, pair_of};

use crate::fault::LineFault;
use crate::form::{Form, PairPieces, TaskPieces};
use crate::{form, words};
use taskset::draft::Draft;
use taskset::task::{Figures, Name, Task};
use textparts::bytes::Class;
use textparts::part::Part;
use textparts::reader::Line;

// Has the task of this number this name?
fn is_named(draft: &Draft, text: &[u8], task: u8, name: Part<'_>) -> bool
    ensures { result ≡ is_named text.now draft.now.tasks task (span_of name.entry).bytes }
{
    draft
        .name(task, text)
        .is_ok_and(|taken| taken == name.bytes)
}

/// The number of the first task of that name.
pub fn find(draft: &Draft, text: &[u8], name: Part<'_>) -> Option<u8>
    ensures { result ≡ find_from text.now 0 draft.now.tasks (span_of name.entry).bytes }
{
    (0..draft.count()).find(|task| is_named(draft, text, *task, name))
}

// The line has no byte but 32 to 126.
fn no_stray(line: &Line<'_>) -> Result<(), LineFault>
    ensures { result ≡ unstray (line_of line.now) }
{
    let part = line.part();
    let n = Class::Printable.run(part.bytes);
    if n == part.bytes.len() {
        Ok(())
    } else {
        Err(LineFault::StrayByte(part.place + n))
    }
}

/// A draft that is made of the lines of a text, where the names of its tasks stand.
// Its own type: this draft is written to while its text is read. One that is only read, or whose names are known to be short, says
// more or asks less, and a type for all would carry the facts of each.
#[derive(Clone, Copy)]
pub struct Building<'t> {
    pub draft: Draft,
    pub text: &'t [u8],
}

// A method that changes the draft alone has to say that the text beside it is the same, so `same_text` stands at each.
impl<'t> Building<'t> {
    fn fresh_name(&self, name: Part<'_>) -> Result<(), LineFault>
        ensures { result ≡ fresh self.now.text.now self.now.draft (span_of name.entry) }
    {
        match find(&self.draft, self.text, name) {
            Some(_) => Err(LineFault::TwiceNamed(name.place)),
            None => Ok(()),
        }
    }

    fn known_name(&self, name: Part<'_>) -> Result<u8, LineFault>
        ensures { result ≡ known self.now.text.now self.now.draft (span_of name.entry) }
    {
        find(&self.draft, self.text, name).ok_or(LineFault::Unnamed(name.place))
    }

    fn task_line(&mut self, w: TaskPieces<'_>) -> Result<(), LineFault>
        ensures later { outcome result self.new.draft
            ≡ task_line self.old.text.now self.old.draft (task_of w.entry) }
        ensures same_text { self.new.text ≡ self.old.text }
    {
        let name = words::name_word(w.name)?;
        let figures = Figures {
            period: words::number_word(w.period)?,
            budget: words::number_word(w.budget)?,
            deadline: words::number_word(w.deadline)?,
            ways: words::ways_word(w.ways)?,
            kind: words::kind_word(w.kind)?,
        };
        self.fresh_name(name)?;
        self.draft.add_named(Task {
            figures,
            name: Name {
                place: name.place,
                len: name.bytes.len(),
            },
        })?;
        Ok(())
    }

    fn noleak_line(&mut self, w: PairPieces<'_>) -> Result<(), LineFault>
        ensures later { outcome result self.new.draft
            ≡ pair_line self.old.text.now self.old.draft (pair_of w.entry) }
        ensures same_text { self.new.text ≡ self.old.text }
    {
        let from = words::name_word(w.from)?;
        let to = words::name_word(w.to)?;
        let k = self.known_name(from)?;
        let i = self.known_name(to)?;
        self.draft.add_pair(k, i)?;
        Ok(())
    }

    /// One line more.
    pub fn read_line(&mut self, line: Line<'_>) -> Result<(), LineFault>
        ensures later { let l = line.entry in
            outcome result self.new.draft
            ≡ rest_read self.old.text.now self.old.draft (line_of l) (left l) }
        ensures same_text { self.new.text ≡ self.old.text }
    {
        no_stray(&line)?;
        match form::of_line(line)? {
            Form::Skipped => Ok(()),
            Form::Task(w) => self.task_line(w),
            Form::Noleak(w) => self.noleak_line(w),
        }
    }
}
