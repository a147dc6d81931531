ghost use Rattle.std.specs.Prelude.{◌<◌};
ghost use Rattle.std.specs.Option.{ForSome};
ghost use Rattle.taskset.specs.Table.{count};
ghost use Rattle.analysis.specs.PlanOf.{plan_table};

use analysis::plan::Plan;
use sets::number_set::TaskSet;

pub mod calls;
mod choice;
mod later;
pub mod start;
pub mod tick;

/// What is known of a task and its job.
#[derive(Clone, Copy, PartialEq, Eq, Debug)]
struct Job {
    /// Ticks since the task's last batch, as far as its period.
    age: u32,
    /// What is left of the budget of the task's job; 0 without a job.
    left: u32,
}

/// A dispatcher between two calls: the plan that it was started with, empty before the first start, and where its run stands.
/// The jobs from the plan's count of tasks on are unused.
// Arrays of fixed size, a place for each task and each way that there may be, so that no memory is asked for.
#[derive(Drop)]
pub struct Dispatcher {
    plan: Plan,
    jobs: [Job; 16],
    /// The task that has the core.
    holder: Option<u8>,
    /// The way whose scrub has begun and is not done.
    under: Option<u8>,
    /// The task that the last tick ran and whose job is not over.
    just_run: Option<u8>,
    /// For each way the tasks that have run on it since its last scrub was done.
    records: [TaskSet; 8],
    ghost holder_listed: { ForSome holder (λ task. task < count (plan_table plan)) },
    ghost under_listed: { ForSome under (λ way. way < 8) },
}
