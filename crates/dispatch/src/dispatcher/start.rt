//! Starting a plan over a resource.
ghost use Rattle.std.specs.Prelude.{◌≡◌, Ok};
ghost use Rattle.resource.specs.Seen.{Seen};
ghost use Rattle.analysis.specs.PlanOf.{plan_figures, plan_floor, EmptyPlan};
ghost use Rattle.runs.specs.Run.{Started};
ghost use Rattle.dispatch.specs.Lasting.{RunBegins};
ghost use Rattle.dispatch.specs.Optional.{IsFirstBelow};
ghost use Rattle.dispatch.specs.View.{plan_of, state_of};
ghost use Rattle.dispatch.specs.Start.{FreshJobs, Fresh, differs, starting, Ready, Begun, StartLeaves};

use super::{Dispatcher, Job};
use analysis::plan::Plan;
use resource::resource::Resource;
use resource::until::scrub_every_way;
use runs::fault::StartFault;
use sets::number_set::TaskSet;
use std::array;

// Does the resource answer another cost for the way than the plan's?
#[tactic(auto, unfolding(analysis::specs::FloorOf::floor_of))]
fn costs_otherwise<R: Resource>(plan: &Plan, resource: &R, way: u8) -> bool
    ensures { result ≡ differs (plan_floor plan.now) (R.meaning.seen resource.now) way }
{
    resource.cost_of(way) != plan.cost(way)
}

// The lowest way whose cost, as the resource answers, is not the plan's.
fn other_cost<R: Resource>(plan: &Plan, resource: &R) -> Option<u8>
    ensures { IsFirstBelow 8 (differs (plan_floor plan.now) (R.meaning.seen resource.now)) result }
{
    (0..8).find(|way| costs_otherwise(plan, resource, *way))
}

// May the plan be started over the resource, or why not?
#[tactic(auto, unfolding(crate::specs::Start::starting, analysis::specs::FloorOf::floor_of))]
fn may_start<R: Resource>(plan: &Plan, resource: &R) -> Result<(), StartFault>
    ensures { result ≡ starting (plan_floor plan.now) (R.meaning.seen resource.now) }
{
    if plan.is_empty() {
        return Err(StartFault::NoTask);
    }
    match other_cost(plan, resource) {
        Some(way) => Err(StartFault::OtherCosts(way)),
        None => Ok(()),
    }
}

// Each task's job before its first batch: an age of the task's period, and nothing left.
fn first_jobs(plan: &Plan) -> [Job; 16]
    ensures { FreshJobs (plan_floor plan.now) result }
{
    // `from_fn` tells a usize; below 16 the remainder is the number itself.
    array::from_fn(|task| first_job(plan, (task % 16) as u8))
}

// That of one task.
fn first_job(plan: &Plan, task: u8) -> Job
    ensures age { result.age ≡ (plan_figures plan.now task).period }
    ensures left { result.left ≡ 0 }
{
    let age = plan.figures_at(task).period;
    Job { age, left: 0 }
}

impl Dispatcher {
    // The state right after a start of the plan.
    fn fresh(plan: &Plan) -> Dispatcher
        ensures plan { plan_of result ≡ plan.now }
        ensures state { Fresh result }
        ensures started { (y : Seen) → Ready (plan_floor plan.now) y
            → Started (plan_floor plan.now) (state_of result) y }
    {
        Dispatcher {
            plan: *plan,
            jobs: first_jobs(plan),
            holder: None,
            under: None,
            just_run: None,
            records: [TaskSet::empty(); 8],
        }
    }

    /// The dispatcher before its first start: it has no tasks, so that it refuses every batch and rests in every tick.
    pub fn new() -> Dispatcher
        ensures plan { EmptyPlan (plan_of result) }
        ensures state { Fresh result }
    {
        Dispatcher::fresh(&Plan::empty())
    }

    // A run of the plan begins: every way is scrubbed, and the state is fresh.
    fn begin<R: Resource>(plan: &Plan, resource: &mut R) -> Dispatcher
        requires { starting (plan_floor plan.now) (R.meaning.seen resource.old) ≡ Ok tt }
        ensures { Begun R.meaning plan.now resource.old result resource.new }
    {
        scrub_every_way(resource);
        Dispatcher::fresh(plan)
    }

    /// Starts the plan over the resource, whatever was started before; a refused start changes nothing.
    pub fn start<R: Resource>(&mut self, plan: &Plan, resource: &mut R) -> Result<(), StartFault>
        ensures answer { result ≡ starting (plan_floor plan.now) (R.meaning.seen resource.old) }
        ensures later { StartLeaves R.meaning plan.now self.old resource.old result
            self.new resource.new }
        ensures law { RunBegins (plan_floor plan.now) result (state_of self.new)
            (R.meaning.seen resource.new) }
    {
        may_start(plan, resource)?;
        *self = Dispatcher::begin(plan, resource);
        Ok(())
    }
}
