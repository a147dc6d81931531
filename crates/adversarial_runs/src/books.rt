//! What the books need to know of an accepted plan before a run: its tasks, and what each job is allowed to spend on scrubs.
use crate::watch::Watched;
use analysis::plan::Plan;
use sets::number_set::TaskSet;
use std::alloc::{AllocError, Global};
use taskset::task::Kind;

// The tasks that must not leak to this one.
fn apart_from(plan: &Plan, task: u8) -> TaskSet {
    (0..plan.count())
        .filter(|other| plan.is_apart(*other, task))
        .fold(TaskSet::empty(), TaskSet::with)
}

// Is the way one that another task uses too, and that task must not leak to this one?
// The allowance is worked out again from here on: the books check from outside what the plan says, so they do not ask it.
fn is_guarded(plan: &Plan, task: u8, way: u8) -> bool {
    (0..plan.count()).any(|other| {
        other != task && plan.figures_at(other).ways.contains(way) && plan.is_apart(other, task)
    })
}

// The scrub calls that all guarded ways of the task may take.
fn scrub_cost(plan: &Plan, task: u8) -> u64 {
    let ways = plan.figures_at(task).ways;
    (0..8u8)
        .filter(|way| ways.contains(*way) && is_guarded(plan, task, *way))
        .map(|way| u64::from(plan.cost(way)))
        .fold(0, u64::saturating_add)
}

// The most that a split task after this one may have to scrub again when it resumes.
fn resume_cost(plan: &Plan, task: u8) -> u64 {
    (task.saturating_add(1)..plan.count())
        .filter(|later| plan.figures_at(*later).kind == Kind::Split)
        .map(|later| scrub_cost(plan, later))
        .max()
        .unwrap_or(0)
}

// A task of the plan, without a batch.
fn watched(plan: &Plan, task: u8) -> Watched {
    Watched {
        figures: plan.figures_at(task),
        apart: apart_from(plan, task),
        bound: plan.bound(task).unwrap_or(0),
        allowance: scrub_cost(plan, task).saturating_add(resume_cost(plan, task)),
        batch: None,
    }
}

/// All tasks of the plan.
pub fn tasks_of(alloc: Global, plan: &Plan) -> Result<Vec<Watched>, AllocError> {
    (0..plan.count())
        .map(|task| watched(plan, task))
        .collect(alloc)
}
