//! Announcing and finishing batches of work, and what may be asked.
ghost use Rattle.std.specs.Prelude.{◌≡◌, ◌≤◌, OnErr};
ghost use Rattle.resource.specs.Seen.{Seen};
ghost use Rattle.runs.specs.History.{announce as announcement, finish as finishing};
ghost use Rattle.dispatch.specs.Lasting.{GoesOn};
ghost use Rattle.dispatch.specs.View.{floor};

use super::{Dispatcher, Job};
use runs::fault::CallFault;

impl Dispatcher {
    /// How many tasks the plan has: none before the first start.
    pub fn task_count(&self) -> u8
        ensures count { result ≡ (floor self.now).tasks }
        ensures few { result ≤ 16 }
    {
        self.plan.count()
    }

    /// A batch of the task has come: taken, unless it comes too early.
    pub fn announce(&mut self, task: u8) -> Result<(), CallFault>
        ensures goes_on { (x : Seen) → GoesOn self.old x (announcement task result) self.new x }
        ensures unchanged { OnErr result (self.new ≡ self.old) }
    {
        if task >= self.task_count() {
            return Err(CallFault::Unlisted);
        }
        let figures = self.plan.figures_at(task);
        if self.jobs[task as usize].age < figures.period {
            return Err(CallFault::TooEarly);
        }
        self.jobs[task as usize] = Job {
            age: 0,
            left: figures.budget,
        };
        Ok(())
    }

    /// The job that the last tick ran and left unended is over, whatever is left of its budget.
    pub fn finish(&mut self, task: u8) -> Result<(), CallFault>
        ensures goes_on { (x : Seen) → GoesOn self.old x (finishing task result) self.new x }
        ensures unchanged { OnErr result (self.new ≡ self.old) }
    {
        if task >= self.task_count() {
            return Err(CallFault::Unlisted);
        }
        if self.just_run != Some(task) {
            return Err(CallFault::NotRunning);
        }
        self.jobs[task as usize].left = 0;
        self.holder = None;
        self.just_run = None;
        Ok(())
    }
}
