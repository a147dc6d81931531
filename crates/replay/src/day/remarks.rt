//! The remarks at a day's end.
ghost use Rattle.std.specs.Prelude.{◌≡◌, OnOk};
ghost use Rattle.replay.specs.Summary.{bound_or};
ghost use Rattle.replay.specs.Going.{Tells, remarked, response_told, responses_told, task_count};

use super::Day;
use daylines::answers::name_of;
use daylines::remarks::{ends, finishes, refused, response, scrubs, taken, unended};
use std::alloc::AllocError;

impl<'t, 'r, R> Day<'t, 'r, R> {
    // A task's bound; 0 for a number that is no task's.
    fn bound_of(&self, task: u8) -> u32
        ensures { result ≡ bound_or self.now.plan.now task }
    {
        self.plan.bound(task).unwrap_or(0)
    }

    // A task's worst response next to its bound. The book's 0 says that no batch has ended, and also that a batch ended in the tick that
    // it came in: both are told alike.
    fn response_of(&mut self, task: u8) -> Result<(), AllocError>
        ensures { OnOk result (Tells self.old (response_told self.old task) self.new) }
    {
        let name = name_of(self.draft, self.text, task);
        let worst = self.book.worst(task);
        let bound = self.bound_of(task);
        response(self.out, name, worst, bound)
    }

    // The same of each task.
    fn responses(&mut self) -> Result<(), AllocError>
        ensures { let all = responses_told self.old (task_count self.old) in
            OnOk result (Tells self.old all self.new) }
    {
        for task in 0..self.plan.count() {
            self.response_of(task)?;
        }
        Ok(())
    }

    /// All remarks.
    pub fn remarks(&mut self) -> Result<(), AllocError>
        ensures { OnOk result (Tells self.old (remarked self.old) self.new) }
    {
        taken(self.out, &self.book)?;
        refused(self.out, &self.book)?;
        ends(self.out, &self.book)?;
        unended(self.out, &self.book)?;
        finishes(self.out, &self.book)?;
        self.responses()?;
        scrubs(self.out, &self.book)
    }
}
