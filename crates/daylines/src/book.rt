//! The books of a day, and what each call and each tick adds to them.
ghost use Rattle.std.specs.Prelude.{◌≡◌, ◌+◌, min};

use runs::answer::TickAnswer;
use runs::fault::CallFault;

/// What is kept of one task.
#[derive(Clone, Copy, Default)]
pub struct Watch {
    /// How many ticks had passed when its last batch was taken.
    since: u32,
    /// The most ticks that a batch of it has taken to its end; 0 as long as none has ended.
    // No `Option`: a batch that is finished before the next tick has taken 0, and is told as no end too.
    worst: u32,
}

/// The books of a day: what its calls have come to, added up. A count that would pass what its bits hold stays at the largest.
#[derive(Clone, Copy, Default)]
pub struct Book {
    pub ticks: u32,
    /// Announcements, by their answers.
    pub taken: u64,
    pub early: u64,
    pub unlisted: u64,
    /// Jobs that ended with their budget, and jobs that were finished by call.
    pub spent: u64,
    pub called: u64,
    /// Finishes that were refused, by their answers.
    pub idle: u64,
    pub strange: u64,
    /// Ticks spent scrubbing, and the allowances of all batches taken.
    pub scrubs: u64,
    pub allowed: u64,
    watches: [Watch; 16],
}

impl Book {
    ghost use Rattle.daylines.specs.Remarks.{unended, worst_at};

    /// Books without an entry.
    pub fn new() -> Book
        ensures { result.ticks ≡ 0 }
    {
        Book::default()
    }

    /// The most ticks that a batch of the task has taken to its end; 0 if none has ended.
    pub fn worst(&self, task: u8) -> u32
        ensures { result ≡ worst_at self.now task }
    {
        self.watches
            .get(task as usize)
            .map_or(0, |watch| watch.worst)
    }

    /// How many batches have not ended.
    pub fn unended(&self) -> u64
        ensures { result ≡ unended self.now }
    {
        self.taken
            .saturating_sub(self.spent)
            .saturating_sub(self.called)
    }

    // The task's last batch is taken at this tick.
    fn open(&mut self, task: u8)
        ensures { self.new.ticks ≡ self.old.ticks }
    {
        let ticks = self.ticks;
        if let Some(watch) = self.watches.get_mut(task as usize) {
            watch.since = ticks;
        }
    }

    // The task's last batch has ended at this tick.
    fn close(&mut self, task: u8)
        ensures { self.new.ticks ≡ self.old.ticks }
    {
        let ticks = self.ticks;
        if let Some(watch) = self.watches.get_mut(task as usize) {
            watch.worst = watch.worst.max(ticks.saturating_sub(watch.since));
        }
    }

    /// An announcement of the task, where each of its batches brings this allowance for scrubbing.
    pub fn count_announcement(&mut self, task: u8, answer: Result<(), CallFault>, allowance: u32)
        ensures { self.new.ticks ≡ self.old.ticks }
    {
        match answer {
            Ok(()) => {
                self.taken = self.taken.saturating_add(1);
                self.allowed = self.allowed.saturating_add(u64::from(allowance));
                self.open(task);
            }
            Err(CallFault::TooEarly) => self.early = self.early.saturating_add(1),
            Err(_) => self.unlisted = self.unlisted.saturating_add(1),
        }
    }

    /// A finish of the task.
    pub fn count_finish(&mut self, task: u8, answer: Result<(), CallFault>)
        ensures { self.new.ticks ≡ self.old.ticks }
    {
        match answer {
            Ok(()) => {
                self.called = self.called.saturating_add(1);
                self.close(task);
            }
            Err(CallFault::NotRunning) => self.idle = self.idle.saturating_add(1),
            Err(_) => self.strange = self.strange.saturating_add(1),
        }
    }

    /// A tick.
    pub fn count_tick(&mut self, answer: TickAnswer)
        ensures { self.new.ticks ≡ min (self.old.ticks + 1) 4294967295 }
    {
        self.ticks = self.ticks.saturating_add(1);
        match answer {
            TickAnswer::Rest => {}
            TickAnswer::Scrub { .. } => self.scrubs = self.scrubs.saturating_add(1),
            TickAnswer::Run { ended: false, .. } => {}
            TickAnswer::Run { task, ended: true } => {
                self.spent = self.spent.saturating_add(1);
                self.close(task);
            }
        }
    }
}
