//! One tick over any resource.
ghost use Rattle.runs.specs.History.{tick as ticked};
ghost use Rattle.dispatch.specs.Lasting.{GoesOn};
ghost use Rattle.dispatch.specs.View.{plan_of, task_ways};
ghost use Rattle.resource.specs.Meaning.{Ran};
ghost use Rattle.dispatch.specs.Tick.{Called};

use super::Dispatcher;
use super::choice::Turn;
use resource::resource::Resource;
use runs::answer::TickAnswer;

impl Dispatcher {
    // The task makes its run call, on all its ways.
    fn run_call<R: Resource>(&self, task: u8, resource: &mut R, address: u32)
        ensures { let ways = task_ways (plan_of self.now) task in
            Ran R.meaning resource.old task ways address resource.new }
    {
        resource.run(task, self.plan.figures_at(task).ways, address);
    }

    /// What the core does in the next tick: one scrub call for the task that has it, or else one run call of that task at the address, or nothing.
    pub fn tick<R: Resource>(&mut self, resource: &mut R, address: u32) -> TickAnswer
        ensures goes_on { let before = R.meaning.seen resource.old in
            GoesOn self.old before (ticked before result) self.new (R.meaning.seen resource.new) }
        ensures call { let plan = plan_of self.old in
            Called R.meaning plan resource.old address result resource.new }
    {
        match self.turn() {
            Turn::Rest => {
                self.note_rest();
                TickAnswer::Rest
            }
            Turn::Scrub { task, way } => {
                let progress = resource.scrub(way);
                self.note_scrub(task, way, progress);
                TickAnswer::Scrub {
                    task,
                    way,
                    progress,
                }
            }
            Turn::Run { task } => {
                self.run_call(task, resource, address);
                let ended = self.note_run(task);
                TickAnswer::Run { task, ended }
            }
        }
    }
}
