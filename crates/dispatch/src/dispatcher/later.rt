//! What a tick leaves, and that the law of every run is kept by it.
ghost use Rattle.std.specs.Prelude.{◌≡◌, ℕ, ◌+◌, ◌<◌, min, ◌&&◌, ◌||◌, ◌==◌};
ghost use Rattle.sets.specs.Sets.{has};
ghost use Rattle.resource.specs.Seen.{Seen, RunOn, ScrubOn};
ghost use Rattle.runs.specs.declared.answer.TickAnswer.TheVariants.{Rest as Rested, Scrub as Scrubbed, Run as Ran};
ghost use Rattle.runs.specs.History.{tick as ticked};
ghost use Rattle.analysis.specs.PlanOf.{plan_floor};
ghost use Rattle.dispatch.specs.declared.dispatcher.choice.Turn.TheVariants.{Rest, Scrub, Run};
ghost use Rattle.dispatch.specs.Lasting.{GoesOn};
ghost use Rattle.dispatch.specs.View.{plan_of, floor, state_of, task_ways, record_at};
ghost use Rattle.dispatch.specs.Later.{Older, RecordsWith};
ghost use Rattle.dispatch.specs.Turn.{IsTurn};

use super::{Dispatcher, Job};
use analysis::plan::Plan;
use resource::answer::Progress;
use sets::number_set::{TaskSet, WaySet};
use std::array;

// An age after one more tick: it grows as far as the period.
fn older_age(age: u32, period: u32) -> u32
    ensures { result ≡ min (age + 1) period }
{
    if age < period { age + 1 } else { period }
}

// Every task's age grows by one tick, as far as its period.
// By index: tried as a zip of the numbers with `iter_mut`, the proof does not close, since nothing is known of the jobs after such a loop.
fn grow_ages(plan: &Plan, jobs: &mut [Job; 16])
    ensures { Older (plan_floor plan.now) jobs.old jobs.new }
{
    for task in 0..plan.count() {
        let Job { age, left } = jobs[task as usize];
        let period = plan.figures(task).unwrap().period;
        jobs[task as usize] = Job {
            age: older_age(age, period),
            left,
        };
    }
}

impl Dispatcher {
    // The record of a way after a run of the task on these ways.
    fn record_with(&self, way: u8, ways: WaySet, task: u8) -> TaskSet
        requires { task < 16 }
        ensures { (k : ℕ) → has result k
            ≡ (record_at self.now.records way k || (k == task && has ways way)) }
    {
        let recorded = self.recorded_on(way);
        if ways.contains(way) {
            recorded.with(task)
        } else {
            recorded
        }
    }

    // Every way's record after a run of the task.
    fn records_with(&self, task: u8) -> [TaskSet; 8]
        requires { task < 16 }
        ensures { RecordsWith self.now task result }
    {
        let ways = self.plan.figures_at(task).ways;
        // `from_fn` tells a usize; below 8 the remainder is the number itself.
        array::from_fn(|way| self.record_with((way % 8) as u8, ways, task))
    }

    // Nobody had the tick.
    pub(super) fn note_rest(&mut self)
        requires { IsTurn (floor self.old) (state_of self.old) Rest }
        ensures { (x : Seen) → GoesOn self.old x (ticked x Rested) self.new x }
    {
        grow_ages(&self.plan, &mut self.jobs);
        self.holder = None;
        self.under = None;
        self.just_run = None;
    }

    // The task had the tick, and a scrub call was made on the way.
    #[tactic(auto, unfolding(analysis::specs::FloorOf::floor_of))]
    pub(super) fn note_scrub(&mut self, task: u8, way: u8, progress: Progress)
        requires { IsTurn (floor self.old) (state_of self.old) (Scrub task way) }
        ensures { (x y : Seen) → ScrubOn x way progress y
            → GoesOn self.old x (ticked x (Scrubbed task way progress)) self.new y }
    {
        grow_ages(&self.plan, &mut self.jobs);
        self.holder = Some(task);
        self.just_run = None;
        match progress {
            Progress::Done => {
                self.records[way as usize] = TaskSet::empty();
                self.under = None;
            }
            Progress::UnderWay => self.under = Some(way),
        }
    }

    // The task had the tick and ran; did its job end with it?
    #[tactic(auto, using(crate::proofs::Plans::plan_few, crate::proofs::Optionals::then_below), unfolding(analysis::specs::FloorOf::floor_of))]
    pub(super) fn note_run(&mut self, task: u8) -> bool
        requires { IsTurn (floor self.old) (state_of self.old) (Run task) }
        ensures { (x y : Seen) → RunOn x task (task_ways (plan_of self.old) task) y
            → GoesOn self.old x (ticked x (Ran task result)) self.new y }
    {
        self.records = self.records_with(task);
        let left = self.jobs[task as usize].left.saturating_sub(1);
        self.jobs[task as usize].left = left;
        grow_ages(&self.plan, &mut self.jobs);
        self.holder = (left > 0).then_some(task);
        self.under = None;
        self.just_run = self.holder;
        left == 0
    }
}
