//! One floor on one resource: analysed, made tight, started and run in each order.
use crate::counts::{Counts, Violations};
use crate::orders::Stage;
use crate::watch::Watch;
use crate::{books, floors};
use analysis::analyse::analyse;
use analysis::plan::Plan;
use chance::Chance;
use dispatch::dispatcher::Dispatcher;
use resource::resource::Resource;
use std::alloc::{AllocError, Global};
use taskset::draft::Draft;

/// What all trials share: where their chance comes from, and what they have counted.
#[derive(Drop)]
pub struct Season {
    pub alloc: Global,
    pub chance: Chance,
    pub counts: Counts,
    pub violations: Violations,
}

// The plan of a draft that the analysis accepts on the resource.
fn plan_of<R: Resource>(draft: &Draft, resource: &R) -> Option<Plan> {
    let mut plan = Plan::empty();
    analyse(draft, resource, &mut [0; 16], &mut [0; 16], &mut plan).ok()?;
    Some(plan)
}

// The plan of the same floor without slack.
fn tight_plan_of<R: Resource>(plan: &Plan, resource: &R) -> Option<Plan> {
    let draft = floors::without_slack(plan).ok()?;
    plan_of(&draft, resource)
}

impl Season {
    fn count_unclean<R: Resource>(&mut self, resource: &R) {
        let unclean = (0..8u8).filter(|way| !resource.is_clean(*way)).count();
        self.violations.unclean.add(unclean as u64);
    }

    // One run of the plan from a start on, with these calls before each tick.
    fn run_plan<R: Resource, F: Fn(&mut Stage<'_>)>(
        &mut self,
        plan: &Plan,
        resource: &mut R,
        ticks: u32,
        calls: F,
    ) -> Result<(), AllocError>
        requires { F.IsAlwaysCallable calls }
    {
        let mut dispatcher = Dispatcher::new();
        if dispatcher.start(plan, resource).is_err() {
            self.violations.answers.add(1);
            return Ok(());
        }
        self.count_unclean(resource);
        let tasks = books::tasks_of(self.alloc, plan)?;
        let mut stage = Stage {
            dispatcher,
            watch: Watch::over(tasks, self.counts, self.violations),
            chance: &mut self.chance,
        };
        stage.run(resource, ticks, calls);
        (self.counts, self.violations) = stage.watch.stop();
        Ok(())
    }

    /// So many ticks of the floor in each order, if the analysis accepts it, with and without its slack.
    pub fn trial<R: Resource>(
        &mut self,
        draft: &Draft,
        resource: &mut R,
        ticks: u32,
    ) -> Result<(), AllocError> {
        self.counts.tried.add(1);
        let Some(plan) = plan_of(draft, resource) else {
            return Ok(());
        };
        self.counts.floors.add(1);
        self.run_plan(&plan, resource, ticks, |stage| stage.call_any())?;
        // Without its slack the floor has to be accepted too.
        let Some(tight) = tight_plan_of(&plan, resource) else {
            self.violations.answers.add(1);
            return Ok(());
        };
        self.run_plan(&tight, resource, ticks, |stage| stage.announce_all())?;
        self.run_plan(&tight, resource, ticks, |stage| stage.ambush())?;
        self.run_plan(&tight, resource, ticks, |stage| stage.call_any())
    }
}
