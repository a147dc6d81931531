//! The line of each call, from its answer.
ghost use Rattle.std.specs.Prelude.{◌≡◌, OnOk};
ghost use Rattle.taskset.specs.Table.{task_at};
ghost use Rattle.daylines.specs.Lines.{name_at, with_announced, with_answer, with_called, with_end, with_finished, with_no_line, with_odd, with_progress, with_run, with_scrub, with_tick, with_ticked};

use printed::{bytes, no_with_word, number, text as put};
use refusal::Refusal;
use resource::answer::Progress;
use runs::answer::TickAnswer;
use runs::fault::CallFault;
use std::alloc::AllocError;
use taskset::draft::Draft;

/// A refusal, as a line.
pub fn refused<F: Refusal>(out: &mut Vec<u8>, fault: &F) -> Result<(), AllocError>
    ensures { OnOk result (out.new.items ≡ with_no_line out.old.items (F.told fault.now)) }
{
    no_with_word(out, fault)?;
    put(out, "\n")
}

/// A line that is no call, by its place.
pub fn odd(out: &mut Vec<u8>, place: usize) -> Result<(), AllocError>
    ensures { OnOk result (out.new.items ≡ with_odd out.old.items place) }
{
    put(out, "odd call ")?;
    put(out, "at ")?;
    number(out, place)?;
    put(out, "\n")
}

// What an announcement or a finish was answered; `word` says that it was not refused.
fn answer(out: &mut Vec<u8>, word: &str, answer: Result<(), CallFault>) -> Result<(), AllocError>
    ensures { OnOk result (out.new.items ≡ with_answer out.old.items word.now answer) }
{
    match answer {
        Ok(()) => put(out, word),
        Err(fault) => no_with_word(out, &fault),
    }
}

// A call by its verb and the name that it was made by, and its answer.
fn called(
    out: &mut Vec<u8>,
    verb: &str,
    name: &[u8],
    word: &str,
    given: Result<(), CallFault>,
) -> Result<(), AllocError>
    ensures { let line = with_called out.old.items verb.now name.now word.now given in
        OnOk result (out.new.items ≡ line) }
{
    put(out, verb)?;
    bytes(out, name)?;
    put(out, ": ")?;
    answer(out, word, given)?;
    put(out, "\n")
}

/// An announcement by the name that it was made by, and its answer.
pub fn announced(
    out: &mut Vec<u8>,
    name: &[u8],
    given: Result<(), CallFault>,
) -> Result<(), AllocError>
    ensures { OnOk result (out.new.items ≡ with_announced out.old.items name.now given) }
{
    called(out, "announce ", name, "taken", given)
}

/// A finish by the name that it was made by, and its answer.
pub fn finished(
    out: &mut Vec<u8>,
    name: &[u8],
    given: Result<(), CallFault>,
) -> Result<(), AllocError>
    ensures { OnOk result (out.new.items ≡ with_finished out.old.items name.now given) }
{
    called(out, "finish ", name, "finished", given)
}

/// A task's name out of the table text; empty for a number that is no task's.
pub fn name_of<'t>(draft: &Draft, text: &'t [u8], task: u8) -> &'t [u8]
    ensures { result.now ≡ name_at text.now (task_at draft.now.tasks task) }
{
    draft.name(task, text).unwrap_or(&[])
}

// Two words by a match, as an `impl Display` would have them.
fn progress(out: &mut Vec<u8>, progress: Progress) -> Result<(), AllocError>
    ensures { OnOk result (out.new.items ≡ with_progress out.old.items progress) }
{
    match progress {
        Progress::Done => put(out, "done"),
        Progress::UnderWay => put(out, "under way"),
    }
}

fn scrub(out: &mut Vec<u8>, name: &[u8], way: u8, reached: Progress) -> Result<(), AllocError>
    ensures { OnOk result (out.new.items ≡ with_scrub out.old.items name.now way reached) }
{
    put(out, "scrub way ")?;
    number(out, way)?;
    put(out, " for ")?;
    bytes(out, name)?;
    put(out, ", ")?;
    progress(out, reached)
}

fn run(out: &mut Vec<u8>, name: &[u8], ended: bool) -> Result<(), AllocError>
    ensures { OnOk result (out.new.items ≡ with_run out.old.items name.now ended) }
{
    put(out, "run ")?;
    bytes(out, name)?;
    put(out, if ended { ", ended" } else { "" })
}

// What a tick was answered, with tasks by their names.
fn tick(out: &mut Vec<u8>, draft: &Draft, text: &[u8], given: TickAnswer) -> Result<(), AllocError>
    ensures { OnOk result (out.new.items ≡ with_tick out.old.items text.now draft.now.tasks given) }
{
    match given {
        TickAnswer::Rest => put(out, "rest"),
        TickAnswer::Scrub {
            task,
            way,
            progress,
        } => scrub(out, name_of(draft, text, task), way, progress),
        TickAnswer::Run { task, ended } => run(out, name_of(draft, text, task), ended),
    }
}

/// A tick by its number, and its answer.
pub fn ticked(
    out: &mut Vec<u8>,
    draft: &Draft,
    text: &[u8],
    at: u32,
    given: TickAnswer,
) -> Result<(), AllocError>
    ensures { let tasks = draft.now.tasks in
        OnOk result (out.new.items ≡ with_ticked out.old.items text.now tasks at given) }
{
    put(out, "tick ")?;
    number(out, at)?;
    put(out, ": ")?;
    tick(out, draft, text, given)?;
    put(out, "\n")
}
