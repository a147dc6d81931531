ghost use Rattle.std.specs.Prelude.{◌≡◌, ℕ, ◌<◌, true, false, ◌&&◌, ◌||◌, ◌==◌, MatchResult, OnOk};
ghost use Rattle.refusal.specs.Outcome.{after, answered};
ghost use Rattle.taskset.specs.Figures.{lawful};
ghost use Rattle.taskset.specs.Bytes.{bytes_of};
ghost use Rattle.taskset.specs.Table.{IsLawful, Table, nothing, count as table_count, noleak, added, both_listed, paired, pair_asked, task_at, figures_of, name_of, unnamed, with_pair, with_task};

use crate::fault::DraftFault;
use crate::task::{Figures, Kind, Name, Task};
use sets::number_set::{TaskSet, WaySet};
use std::marker::Model;

/// A draft: up to sixteen tasks, numbered from 0 in the order in which they came, and the pairs between them.
/// The places from `count` on are unused, and all alike. Entry i of `pairs` holds each k of which task i must see no trace.
#[derive(Clone, Copy)]
pub struct Draft {
    count: u8,
    // a table of fixed size, which is copied by value and asks for no memory: so arrays with a count, and no lists; two of them, since the tasks are lent as a slice
    tasks: [Task; 16],
    pairs: [TaskSet; 16],
}

impl Model for Draft {
    ghost use Rattle.taskset.specs.Table.{Table};
    ghost use Rattle.taskset.specs.Places.{table_in, IsTidy};
    ghost use Rattle.taskset.specs.Back.{places_of, places-back};

    ghost Value = { Table };

    ghost view = { table_in };

    ghost invariant = { IsTidy };

    ghost inverse = { places_of };

    ghost inverse_ok = { places-back };
}

impl Draft {
    // The task of a number.
    fn task(&self, task: u8) -> Result<Task, DraftFault>
        ensures { result ≡ task_at self.now.tasks task }
    {
        if task < self.count {
            Ok(self.tasks[task as usize])
        } else {
            Err(DraftFault::Unlisted)
        }
    }

    // The task goes into the next place.
    fn push(&mut self, task: Task)
        requires room { table_count self.old < 16 }
        requires figures { lawful task.figures ≡ true }
        ensures value { self.new ≡ with_task self.old task }
        ensures pairs { (k i : ℕ) → noleak self.new k i ≡ noleak self.old k i }
    {
        let Draft { count, tasks, .. } = self;
        tasks[*count as usize] = task;
        *count += 1;
    }

    // Task `to` must see no trace of task `from`.
    fn keep_apart(&mut self, from: u8, to: u8)
        requires listed { both_listed self.old from to ≡ true }
        requires two { (from == to) ≡ false }
        ensures value { self.new ≡ with_pair self.old from to }
        ensures pairs { (k i : ℕ) →
            noleak self.new k i ≡ (noleak self.old k i || (k == from && i == to)) }
    {
        self.pairs[to as usize] = self.pairs[to as usize].with(from);
    }

    // Must task `to` see no trace of task `from`?
    fn kept_apart(&self, from: u8, to: u8) -> bool
        requires { both_listed self.now from to ≡ true }
        ensures { result ≡ noleak self.now from to }
    {
        self.pairs[to as usize].contains(from)
    }

    /// The draft without a task.
    pub fn empty() -> Draft
        ensures { result ≡ nothing }
    {
        let figures = Figures {
            period: 1,
            budget: 1,
            deadline: 1,
            ways: WaySet::empty(),
            kind: Kind::Split,
        };
        let name = Name { place: 0, len: 0 };
        Draft {
            count: 0,
            tasks: [Task { figures, name }; 16],
            pairs: [TaskSet::empty(); 16],
        }
    }

    /// How many tasks there are.
    pub fn count(&self) -> u8
        ensures value { result ≡ table_count self.now }
        ensures lawful { IsLawful self.now }
    {
        self.count
    }

    /// The tasks, in the order of their numbers.
    pub fn tasks(&self) -> &[Task]
        ensures value { result.now ≡ self.now.tasks }
        ensures lawful { IsLawful self.now }
    {
        &self.tasks[..self.count as usize]
    }

    /// One task more, by its figures alone: it takes the next number, which is the answer, and has no name.
    pub fn add(&mut self, figures: Figures) -> Result<u8, DraftFault>
        ensures answer { result
            ≡ answered (table_count self.old) (added self.old (unnamed figures)) }
        ensures later { self.new ≡ after self.old (added self.old (unnamed figures)) }
        ensures pairs { (k i : ℕ) → noleak self.new k i ≡ noleak self.old k i }
    {
        // The empty name at place 0, and no Option: such a task is asked for its name like any other.
        self.add_named(Task {
            figures,
            name: Name { place: 0, len: 0 },
        })
    }

    /// One task more, with its name: it takes the next number, which is the answer.
    pub fn add_named(&mut self, task: Task) -> Result<u8, DraftFault>
        ensures answer { result ≡ answered (table_count self.old) (added self.old task) }
        ensures later { self.new ≡ after self.old (added self.old task) }
        ensures pairs { (k i : ℕ) → noleak self.new k i ≡ noleak self.old k i }
    {
        let number = self.count;
        if number >= 16 {
            return Err(DraftFault::FullTable);
        }
        if !task.figures.is_lawful() {
            return Err(DraftFault::WildFigure);
        }
        self.push(task);
        Ok(number)
    }

    /// The pair noleak `from` to `to`; a pair that stands already stays as it is.
    pub fn add_pair(&mut self, from: u8, to: u8) -> Result<(), DraftFault>
        ensures answer { result ≡ answered tt (paired self.old from to) }
        ensures later { self.new ≡ after self.old (paired self.old from to) }
        ensures pairs { OnOk result ((k i : ℕ) →
            noleak self.new k i ≡ (noleak self.old k i || (k == from && i == to))) }
    {
        if from >= self.count || to >= self.count {
            return Err(DraftFault::Unlisted);
        }
        if from == to {
            return Err(DraftFault::Itself);
        }
        self.keep_apart(from, to);
        Ok(())
    }

    /// The figures of a task.
    pub fn figures(&self, task: u8) -> Result<Figures, DraftFault>
        ensures { result ≡ figures_of (task_at self.now.tasks task) }
    {
        Ok(self.task(task)?.figures)
    }

    /// Does the pair noleak `from` to `to` stand?
    pub fn has_pair(&self, from: u8, to: u8) -> Result<bool, DraftFault>
        ensures { result ≡ pair_asked self.now from to }
    {
        if from >= self.count || to >= self.count {
            return Err(DraftFault::Unlisted);
        }
        Ok(self.kept_apart(from, to))
    }

    /// The name of a task, out of the text that it was read from.
    pub fn name<'t>(&self, task: u8, text: &'t [u8]) -> Result<&'t [u8], DraftFault>
        ensures { bytes_of result ≡ name_of text.now (task_at self.now.tasks task) }
    {
        Ok(self.task(task)?.name.within(text))
    }
}
