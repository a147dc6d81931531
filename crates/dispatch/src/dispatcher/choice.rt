//! What the core does in the next tick.
ghost use Rattle.std.specs.Prelude.{◌≡◌, ℕ, ◌<◌, ◌&&◌, length, nat_lt};
ghost use Rattle.sets.specs.Below.{some_below};
ghost use Rattle.sets.specs.Sets.{has};
ghost use Rattle.runs.specs.State.{pending, stays as keeps_core, chosen as chosen_task, tainted, scrub_way};
ghost use Rattle.dispatch.specs.Optional.{StandsFor, IsFirstBelow};
ghost use Rattle.dispatch.specs.View.{plan_of, floor, state_of, task_ways, job_at, record_at};
ghost use Rattle.dispatch.specs.Turn.{IsTurn};

use super::{Dispatcher, Job};
use sets::number_set::{TaskSet, WaySet};

/// What the core does in a tick.
#[derive(Clone, Copy, PartialEq, Eq, Debug)]
pub(super) enum Turn {
    /// No task has a job.
    Rest,
    /// The way is scrubbed for the task.
    Scrub { task: u8, way: u8 },
    /// The task runs.
    Run { task: u8 },
}

// The place of the first job with something left.
fn first_left(jobs: &[Job]) -> Option<usize>
    ensures { IsFirstBelow (length jobs.now) (λ k. nat_lt 0 (job_at jobs.now k).left) result }
{
    jobs.iter().position(|job| job.left > 0)
}

impl Dispatcher {
    // Does the holder keep the core?
    #[tactic(auto, unfolding(runs::specs::State::stays, crate::specs::View::state_of, analysis::specs::FloorOf::floor_of))]
    fn stays(&self) -> bool
        ensures { result ≡ keeps_core (floor self.now) (state_of self.now) }
    {
        self.holder.is_some_and(|task| {
            self.under.is_some() || self.plan.figures_at(task).kind.is_whole()
        })
    }

    // The task of the highest priority that has a job.
    fn first_job(&self) -> Option<u8>
        ensures { IsFirstBelow (floor self.now).tasks (pending (state_of self.now)) result }
    {
        let tasks = usize::from(self.task_count());
        first_left(&self.jobs[..tasks]).map(|task| task as u8)
    }

    // The task that has the next tick.
    #[tactic(auto, using(crate::proofs::Firsts::first_stands, crate::proofs::Optionals::stands_some), unfolding(runs::specs::State::chosen, crate::specs::View::state_of, analysis::specs::FloorOf::floor_of))]
    fn chosen(&self) -> Option<u8>
        ensures { let f = floor self.now in
            StandsFor f.tasks (chosen_task f (state_of self.now)) result }
    {
        if self.stays() {
            self.holder
        } else {
            self.first_job()
        }
    }

    // The tasks recorded on the way; none where there is no such way.
    #[tactic(auto, unfolding(sets::specs::Sets::nobody))]
    pub(super) fn recorded_on(&self, way: u8) -> TaskSet
        ensures { (k : ℕ) → has result k ≡ record_at self.now.records way k }
    {
        self.records
            .get(usize::from(way))
            .copied()
            .unwrap_or(TaskSet::empty())
    }

    // Is the other task recorded, and must it not leak to the task?
    fn leaks(&self, recorded: TaskSet, other: u8, task: u8) -> bool
        ensures { result ≡ (has recorded other && (floor self.now).noleak other task) }
    {
        recorded.contains(other) && self.plan.is_apart(other, task)
    }

    // Does any recorded task leak? Each is looked at, since any of them may have left the trace.
    fn is_leaky(&self, recorded: TaskSet, task: u8) -> bool
        ensures { result ≡ some_below (floor self.now).tasks
            (λ other. has recorded other && (floor self.now).noleak other task) }
    {
        (0..self.task_count()).any(|other| self.leaks(recorded, other, task))
    }

    // Must the way be scrubbed before the task may run, which uses these ways?
    #[tactic(auto, unfolding(runs::specs::State::tainted, crate::specs::View::state_of, analysis::specs::FloorOf::floor_of))]
    fn is_tainted(&self, task: u8, ways: WaySet, way: u8) -> bool
        requires { ways ≡ task_ways (plan_of self.now) task }
        ensures { result ≡ tainted (floor self.now) (state_of self.now) task way }
    {
        ways.contains(way) && self.is_leaky(self.recorded_on(way), task)
    }

    // The lowest way that must be scrubbed before the task may run.
    fn first_tainted(&self, task: u8) -> Option<u8>
        ensures { IsFirstBelow 8 (tainted (floor self.now) (state_of self.now) task) result }
    {
        let ways = self.plan.figures_at(task).ways;
        (0..8).find(|way| self.is_tainted(task, ways, *way))
    }

    // The way that is scrubbed next for the task.
    #[tactic(auto, using(crate::proofs::Firsts::first_stands), unfolding(runs::specs::State::scrub_way, crate::specs::View::state_of, analysis::specs::FloorOf::floor_of))]
    fn scrub_way(&self, task: u8) -> Option<u8>
        ensures { let f = floor self.now in
            StandsFor f.ways (scrub_way f (state_of self.now) task) result }
    {
        self.under.or_else(|| self.first_tainted(task))
    }

    // What the core does in the next tick.
    pub(super) fn turn(&self) -> Turn
        ensures { IsTurn (floor self.now) (state_of self.now) result }
    {
        let Some(task) = self.chosen() else {
            return Turn::Rest;
        };
        match self.scrub_way(task) {
            Some(way) => Turn::Scrub { task, way },
            None => Turn::Run { task },
        }
    }
}
