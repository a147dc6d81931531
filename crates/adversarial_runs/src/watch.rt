//! The books that are kept of a run from outside: by its calls and their answers alone.
use crate::counts::{Counts, Violations};
use resource::answer::Progress;
use runs::answer::TickAnswer;
use runs::fault::CallFault;
use sets::number_set::{TaskSet, WaySet};
use taskset::task::Figures;

/// A batch that was taken, and what has become of it.
#[derive(Clone, Copy, Default)]
pub struct Batch {
    /// the ticks that have followed it
    pub since: u32,
    /// those of them that ran its task, also after a finish, where each is a violation
    pub ran: u32,
    /// a finish of it was not refused
    // A flag, and no case of an enum: it has no value beside it, and the counts go on after it.
    pub finished: bool,
}

/// A task, and its last batch.
#[derive(Clone, Copy)]
pub struct Watched {
    pub figures: Figures,
    /// the tasks that must not leak to this one
    pub apart: TaskSet,
    pub bound: u32,
    pub allowance: u64,
    pub batch: Option<Batch>,
}

impl Watched {
    /// Would a batch of it announced now come too early?
    pub fn is_early(&self) -> bool {
        self.batch
            .is_some_and(|batch| batch.since < self.figures.period)
    }

    /// Has its last batch neither been finished nor run in full?
    pub fn is_waiting(&self) -> bool {
        self.batch
            .is_some_and(|batch| !batch.finished && batch.ran < self.figures.budget)
    }

    // One tick has run it: its batch with that tick. A run without a batch leaves none.
    fn run(&mut self) -> Batch {
        let mut batch = self.batch.unwrap_or_default();
        batch.ran = batch.ran.saturating_add(1);
        self.batch = self.batch.map(|_| batch);
        batch
    }

    // One tick more has followed its batch. Is the batch waiting, and its deadline come?
    fn is_late_with_tick(&mut self) -> bool {
        let Some(batch) = &mut self.batch else {
            return false;
        };
        batch.since = batch.since.saturating_add(1);
        let since = batch.since;
        since == self.figures.deadline && self.is_waiting()
    }
}

/// The books of one run: its tasks, the traces that they left, and what is counted of the calls and their answers.
#[derive(Drop)]
pub struct Watch {
    tasks: Vec<Watched>,
    /// for each way, the tasks that have run there since the way's last scrub that was done
    traces: [TaskSet; 8],
    just_run: Option<u8>,
    scrubs: u64,
    allowances: u64,
    counts: Counts,
    pub violations: Violations,
}

impl Watch {
    /// The books at a start, over these tasks, which count on from what other runs have counted.
    pub fn over(tasks: Vec<Watched>, counts: Counts, violations: Violations) -> Watch {
        Watch {
            tasks,
            traces: [TaskSet::empty(); 8],
            just_run: None,
            scrubs: 0,
            allowances: 0,
            counts,
            violations,
        }
    }

    /// The task that the last tick ran, if its job neither ended with that tick nor was finished since.
    pub fn just_run(&self) -> Option<u8> {
        self.just_run
    }

    /// How many tasks there are.
    pub fn count(&self) -> u8 {
        self.tasks.len().min(255) as u8
    }

    /// Would an announcement of the task come too early?
    pub fn is_early(&self, number: u8) -> bool {
        self.tasks
            .get(usize::from(number))
            .is_some_and(|task| task.is_early())
    }

    /// Is no batch waiting?
    pub fn is_quiet(&self) -> bool {
        self.tasks.iter().all(|task| !task.is_waiting())
    }

    fn note_unlisted(&mut self, answer: Result<(), CallFault>) {
        self.counts.unlisted.add(1);
        self.violations
            .answers
            .add_if(answer != Err(CallFault::Unlisted));
    }

    /// A task was announced, and the dispatcher gave this answer.
    pub fn note_announced(&mut self, number: u8, answer: Result<(), CallFault>) {
        let Some(task) = self.tasks.get_mut(usize::from(number)) else {
            return self.note_unlisted(answer);
        };
        match answer {
            Ok(()) => {
                self.violations.refusals.add_if(task.is_early());
                self.violations.answers.add_if(task.is_waiting());
                task.batch = Some(Batch::default());
                self.allowances = self.allowances.saturating_add(task.allowance);
                self.counts.allowances.add(task.allowance);
                self.counts.taken.add(1);
            }
            Err(fault) => {
                self.violations.refusals.add_if(!task.is_early());
                self.violations.answers.add_if(fault != CallFault::TooEarly);
                self.counts.too_early.add(1);
            }
        }
    }

    /// A finish of a task was called for, and the dispatcher gave this answer.
    pub fn note_finished(&mut self, number: u8, answer: Result<(), CallFault>) {
        let is_running = self.just_run == Some(number);
        let Some(task) = self.tasks.get_mut(usize::from(number)) else {
            return self.note_unlisted(answer);
        };
        match answer {
            Ok(()) => {
                self.violations.answers.add_if(!is_running);
                if let Some(batch) = &mut task.batch {
                    batch.finished = true;
                }
                self.just_run = None;
                self.counts.finished.add(1);
            }
            Err(fault) => {
                self.violations
                    .answers
                    .add_if(is_running || fault != CallFault::NotRunning);
                self.counts.not_running.add(1);
            }
        }
    }

    // The tasks that have run on these ways since they were scrubbed.
    fn traces_on(&self, ways: WaySet) -> TaskSet {
        (0..8u8)
            .zip(&self.traces)
            .filter(|(way, _)| ways.contains(*way))
            .fold(TaskSet::empty(), |all, (_, traces)| all.union(*traces))
    }

    fn leave_traces(&mut self, ways: WaySet, number: u8) {
        for (way, traces) in (0..8u8).zip(self.traces.iter_mut()) {
            if ways.contains(way) {
                *traces = traces.with(number);
            }
        }
    }

    fn note_run(&mut self, number: u8, ended: bool) {
        let Some(task) = self.tasks.get_mut(usize::from(number)) else {
            self.violations.answers.add(1);
            return;
        };
        self.violations.beyond.add_if(!task.is_waiting());
        let batch = task.run();
        let Watched {
            figures,
            apart,
            bound,
            ..
        } = *task;
        self.violations
            .answers
            .add_if(ended != (batch.ran == figures.budget));
        let leaking = self.traces_on(figures.ways).intersection(apart);
        self.violations.leaks.add_if(!leaking.is_empty());
        self.leave_traces(figures.ways, number);
        self.just_run = (!ended).then_some(number);
        self.counts.ended.add_if(ended);
        self.counts
            .at_bound
            .add_if(ended && batch.since.saturating_add(1) == bound);
    }

    fn note_scrub(&mut self, number: u8, way: u8, progress: Progress) {
        self.just_run = None;
        self.scrubs = self.scrubs.saturating_add(1);
        self.counts.scrubs.add(1);
        self.violations.unpaid.add_if(self.scrubs > self.allowances);
        let is_waiting = self.tasks.get(usize::from(number)).is_some_and(|task| task.is_waiting()
            && task.figures.ways.contains(way));
        self.violations.answers.add_if(!is_waiting);
        if progress == Progress::Done {
            if let Some(traces) = self.traces.get_mut(usize::from(way)) {
                *traces = TaskSet::empty();
            }
        }
    }

    // One tick more has followed each batch.
    fn pass_tick(&mut self) {
        for task in self.tasks.iter_mut() {
            self.violations.late.add_if(task.is_late_with_tick());
        }
        self.counts.ticks.add(1);
    }

    /// A tick passed, and the dispatcher gave this answer.
    pub fn note_tick(&mut self, answer: &TickAnswer) {
        match *answer {
            TickAnswer::Rest => {
                self.just_run = None;
                self.counts.rests.add(1);
                let is_quiet = self.is_quiet();
                self.violations.answers.add_if(!is_quiet);
            }
            TickAnswer::Scrub {
                task,
                way,
                progress,
            } => self.note_scrub(task, way, progress),
            TickAnswer::Run { task, ended } => self.note_run(task, ended),
        }
        self.pass_tick();
    }

    /// The run stops here: what has been counted over all runs.
    pub fn stop(self) -> (Counts, Violations) {
        let mut counts = self.counts;
        let waiting = self.tasks.iter().filter(|task| task.is_waiting()).count();
        counts.unended.add(waiting as u64);
        (counts, self.violations)
    }
}
