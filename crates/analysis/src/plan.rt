//! The plan of an accepted floor.
ghost use Rattle.std.specs.Prelude.{◌≡◌, ℕ, ◌<◌, ◌≤◌, length, slice_index, MatchResult};
ghost use Rattle.analysis.specs.Bounds.{Accepted};
ghost use Rattle.analysis.specs.Priced.{Priced};
ghost use Rattle.analysis.specs.PricedFloor.{priced_floor};
ghost use Rattle.analysis.specs.Written.{Written};

use crate::check::check;
use crate::costs::WayCosts;
use crate::fault::AnalysisFault;
use crate::priced::PricedDraft;
use crate::settle::settle;
use crate::sheet::Sheet;
use resource::resource::Resource;
use std::array;
use taskset::draft::Draft;
use taskset::fault::DraftFault;
use taskset::task::Figures;

/// A plan: an accepted draft, the costs that it was accepted on, and its tasks' bounds; or empty, without a task.
/// The bounds from the draft's count on are unused.
#[derive(Clone, Copy)]
pub struct Plan {
    floor: PricedDraft,
    // fixed room, since a plan is copied by value and asks for no memory
    bounds: [u32; 16],
    ghost priced: { Priced (priced_floor floor) },
    ghost accepted: { ∥ Accepted (priced_floor floor) (λ i. slice_index bounds i) ∥₁ },
}

// Writes the first n values into the first n places of a list.
fn write_first(list: &mut [u32], values: &[u32; 16], n: usize)
    requires few { n ≤ 16 }
    requires room { n ≤ length list.old }
    ensures { Written n (λ k. slice_index values.now k) list.old list.new }
{
    list[..n].copy_from_slice(&values[..n]);
}

impl Plan {
    ghost use Rattle.std.specs.Prelude.{◌==◌};
    ghost use Rattle.taskset.specs.Table.{IsLawful, count as table_count, pair_asked, task_at, figures_of};
    ghost use Rattle.analysis.specs.After.{PlanFor};
    ghost use Rattle.analysis.specs.PlanOf.{plan_table, plan_cost, plan_floor, plan_bound, plan_figures, plan_slack, allowance_asked, bound_asked, EmptyPlan};
    ghost use Rattle.analysis.specs.Verdict.{asked_floor, Ready, Refused};

    /// The plan without a task.
    pub fn empty() -> Plan
        ensures { EmptyPlan result }
    {
        Plan {
            floor: PricedDraft::new(&Draft::empty(), WayCosts::none()),
            bounds: [0; 16],
        }
    }

    // The plan of a draft on a resource, for lists with so much room; or why there is none.
    pub(crate) fn verdict<R: Resource>(
        draft: &Draft,
        resource: &R,
        room: usize,
    ) -> Result<Plan, AnalysisFault>
        ensures { let t = draft.now in
            let x = R.meaning.seen resource.now in
            let f = asked_floor t x in
            MatchResult result (λ p. Ready f x.ways room × PlanFor t x p) (Refused f x.ways room) }
    {
        let ways = resource.way_count();
        let floor = PricedDraft::new(draft, WayCosts::of_resource(resource));
        check(&floor, ways, room)?;
        let bounds = settle(&Sheet::of(&floor))?;
        Ok(Plan { floor, bounds })
    }

    /// Leaves it without a task.
    pub fn clear(&mut self)
        ensures { EmptyPlan self.new }
    {
        *self = Plan::empty();
    }

    /// How many tasks there are.
    pub fn count(&self) -> u8
        ensures value { result ≡ table_count (plan_table self.now) }
        ensures lawful { IsLawful (plan_table self.now) }
        ensures tasks { result ≡ (plan_floor self.now).tasks }
        ensures few { result ≤ 16 }
    {
        self.floor.count()
    }

    /// Is there no task?
    pub fn is_empty(&self) -> bool
        ensures { result ≡ (table_count (plan_table self.now) == 0) }
    {
        self.count() == 0
    }

    /// The figures of a task.
    pub fn figures(&self, task: u8) -> Result<Figures, DraftFault>
        ensures { result ≡ figures_of (task_at (plan_table self.now).tasks task) }
    {
        self.floor.draft.figures(task)
    }

    /// The figures of a task; all 0, without a way, where the number is no task's.
    pub fn figures_at(&self, task: u8) -> Figures
        ensures { result ≡ plan_figures self.now task }
    {
        self.floor.figures_at(task)
    }

    /// Does the pair noleak `from` to `to` stand?
    pub fn has_pair(&self, from: u8, to: u8) -> Result<bool, DraftFault>
        ensures { result ≡ pair_asked (plan_table self.now) from to }
    {
        self.floor.draft.has_pair(from, to)
    }

    /// Must the task `to` see no trace of the task `from`? Not where a number is no task's.
    pub fn is_apart(&self, from: u8, to: u8) -> bool
        ensures { result ≡ (plan_floor self.now).noleak from to }
    {
        self.floor.is_apart(from, to)
    }

    /// The bound of a task's response, in ticks from its announcement.
    pub fn bound(&self, task: u8) -> Result<u32, DraftFault>
        ensures { result ≡ bound_asked self.now task }
    {
        if task >= self.count() {
            return Err(DraftFault::Unlisted);
        }
        Ok(self.bounds[task as usize])
    }

    /// The most ticks of scrubbing that one job of the task brings into a run: its own scrubs, and those of the task that it makes resume.
    pub fn allowance(&self, task: u8) -> Result<u32, DraftFault>
        ensures { result ≡ allowance_asked self.now task }
    {
        if task < self.count() {
            Ok(self.floor.allowance(task))
        } else {
            Err(DraftFault::Unlisted)
        }
    }

    /// The cost of a way that the plan was accepted on; 0 past the last.
    pub fn cost(&self, way: u8) -> u16
        ensures { result ≡ plan_cost self.now way }
    {
        self.floor.cost(way)
    }

    // How many places of a list it fills.
    fn task_count(&self) -> usize
        ensures value { result ≡ (plan_floor self.now).tasks }
        ensures few { result ≤ 16 }
    {
        usize::from(self.count())
    }

    // A task's slack: its deadline less its bound.
    fn slack(&self, task: u8) -> u32
        ensures { result ≡ plan_slack self.now task }
    {
        let bound = self.bounds.get(usize::from(task)).copied().unwrap_or(0);
        self.figures_at(task).deadline.saturating_sub(bound)
    }

    // Each task's slack, in its place.
    fn slacks(&self) -> [u32; 16]
        ensures { (i : ℕ) → i < 16 → slice_index result i ≡ plan_slack self.now i }
    {
        // from_fn tells a usize; below 16 the remainder is the number itself
        array::from_fn(|task| self.slack((task % 16) as u8))
    }

    // The two that follow write by one function, and differ in what.
    // Writes each task's bound into its place of a list.
    pub(crate) fn write_bounds(&self, list: &mut [u32])
        requires { (plan_floor self.now).tasks ≤ length list.old }
        ensures { Written (plan_floor self.now).tasks (plan_bound self.now) list.old list.new }
    {
        write_first(list, &self.bounds, self.task_count());
    }

    // Writes each task's slack into its place of a list.
    pub(crate) fn write_slacks(&self, list: &mut [u32])
        requires { (plan_floor self.now).tasks ≤ length list.old }
        ensures { Written (plan_floor self.now).tasks (plan_slack self.now) list.old list.new }
    {
        write_first(list, &self.slacks(), self.task_count());
    }
}
