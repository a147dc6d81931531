//! What was read from a table text, listed for people: each task and each pair, or why the text was refused.
#![tactic(auto)]

ghost use Rattle.std.specs.Prelude.{◌≡◌, Ok, IfOk, OnOk};
ghost use Rattle.taskset.specs.Table.{count};
ghost use Rattle.tabletext.specs.Read.{read_text};
ghost use Rattle.listing.specs.Listing.{listing as listing_of, with_figures, with_kind, with_pair_if, with_pairs, with_pairs_to, with_task_at, with_tasks, with_times, with_way, with_ways};

use printed::{bytes, no, number, text as put};
use sets::number_set::WaySet;
use std::alloc::{AllocError, Global};
use tabletext::text::read;
use taskset::draft::Draft;
use taskset::task::{Figures, Kind, Task};

// The digit of the way, if it is in the set.
fn list_way(out: &mut Vec<u8>, ways: WaySet, way: u8) -> Result<(), AllocError>
    ensures { OnOk result (out.new.items ≡ with_way out.old.items ways way) }
{
    if ways.contains(way) {
        number(out, way)?;
    }
    Ok(())
}

// The digits of the ways, rising.
#[tactic(auto, using(crate::proofs::Steps::with_ways_more))]
fn list_ways(out: &mut Vec<u8>, ways: WaySet) -> Result<(), AllocError>
    ensures { OnOk result (out.new.items ≡ with_ways out.old.items ways 8) }
{
    for way in 0..8u8 {
        list_way(out, ways, way)?;
    }
    Ok(())
}

// Two words by a match, as an `impl Display` would have them, and with them the end of the line.
fn list_kind(out: &mut Vec<u8>, kind: Kind) -> Result<(), AllocError>
    ensures { OnOk result (out.new.items ≡ with_kind out.old.items kind) }
{
    match kind {
        Kind::Split => put(out, " split\n"),
        Kind::Whole => put(out, " whole\n"),
    }
}

fn list_times(out: &mut Vec<u8>, f: &Figures) -> Result<(), AllocError>
    ensures { OnOk result (out.new.items ≡ with_times out.old.items f.now) }
{
    put(out, " period ")?;
    number(out, f.period)?;
    put(out, " budget ")?;
    number(out, f.budget)?;
    put(out, " deadline ")?;
    number(out, f.deadline)
}

fn list_figures(out: &mut Vec<u8>, f: &Figures) -> Result<(), AllocError>
    ensures { OnOk result (out.new.items ≡ with_figures out.old.items f.now) }
{
    list_times(out, f)?;
    put(out, " ways ")?;
    list_ways(out, f.ways)?;
    list_kind(out, f.kind)
}

// The line of one task.
fn list_task(out: &mut Vec<u8>, i: usize, task: &Task, text: &[u8]) -> Result<(), AllocError>
    ensures { OnOk result (out.new.items ≡ with_task_at out.old.items text.now i (Ok task.now)) }
{
    put(out, "task ")?;
    number(out, i)?;
    put(out, " ")?;
    bytes(out, task.name.within(text))?;
    list_figures(out, &task.figures)
}

// A draft, and the text that it was read from. Its own type: it lends both, and knows nothing of them. A type for every draft with its
// text would carry what is known where one is written to, or where names are short.
#[derive(Clone, Copy)]
struct Source<'t> {
    draft: &'t Draft,
    text: &'t [u8],
}

impl<'t> Source<'t> {
    // The lines of the tasks.
    fn list_tasks(self, out: &mut Vec<u8>) -> Result<(), AllocError>
        ensures { let t = self.entry.draft.now in
            OnOk result (out.new.items ≡ with_tasks out.old.items self.entry.text.now t (count t)) }
    {
        for (i, task) in self.draft.tasks().iter().enumerate() {
            list_task(out, i, task, self.text)?;
        }
        Ok(())
    }

    // The line of one pair, by the names of its tasks, if it stands.
    fn list_pair(self, out: &mut Vec<u8>, from: u8, to: u8) -> Result<(), AllocError>
        ensures { let t = self.entry.draft.now in
            OnOk result (out.new.items ≡ with_pair_if out.old.items self.entry.text.now t to from) }
    {
        let names = (
            self.draft.name(from, self.text),
            self.draft.name(to, self.text),
        );
        let (Ok(true), (Ok(before), Ok(after))) = (self.draft.has_pair(from, to), names) else {
            return Ok(());
        };
        put(out, "noleak ")?;
        bytes(out, before)?;
        put(out, " ")?;
        bytes(out, after)?;
        put(out, "\n")
    }

    // The lines of the pairs to one task. By number, since a pair is asked for by its tasks' numbers.
    #[tactic(auto, using(crate::proofs::Steps::with_pairs_to_more))]
    fn list_pairs_to(self, out: &mut Vec<u8>, to: u8) -> Result<(), AllocError>
        ensures { let t = self.entry.draft.now in
            OnOk result (out.new.items
            ≡ with_pairs_to out.old.items self.entry.text.now t to (count t)) }
    {
        for from in 0..self.draft.count() {
            self.list_pair(out, from, to)?;
        }
        Ok(())
    }

    // The lines of all pairs.
    #[tactic(auto, using(crate::proofs::Steps::with_pairs_more))]
    fn list_pairs(self, out: &mut Vec<u8>) -> Result<(), AllocError>
        ensures { let t = self.entry.draft.now in
            OnOk result (out.new.items ≡ with_pairs out.old.items self.entry.text.now t (count t)) }
    {
        for to in 0..self.draft.count() {
            self.list_pairs_to(out, to)?;
        }
        Ok(())
    }
}

/// Reads the text, and lists what it says or why it was refused.
pub fn listing(alloc: Global, text: &[u8]) -> Result<Vec<u8>, AllocError>
    ensures { IfOk result (λ v. v.items ≡ listing_of text.now (read_text text.now)) }
{
    let mut out = Vec::new(alloc);
    let mut draft = Draft::empty();
    match read(text, &mut draft) {
        Ok(()) => {
            let source = Source {
                draft: &draft,
                text,
            };
            source.list_tasks(&mut out)?;
            source.list_pairs(&mut out)?;
        }
        Err(fault) => {
            no(&mut out, &fault)?;
            put(&mut out, "\n")?;
        }
    }
    Ok(out)
}
