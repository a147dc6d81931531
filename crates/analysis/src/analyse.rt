//! The verdict on a draft.
ghost use Rattle.std.specs.Prelude.{ℕ, ◌-◌, min, length};
ghost use Rattle.taskset.specs.Table.{count as table_count};
ghost use Rattle.analysis.specs.After.{PlanAfter, ListAfter};
ghost use Rattle.analysis.specs.PlanOf.{plan_bound};
ghost use Rattle.analysis.specs.Verdict.{asked_floor, Verdict};

use crate::fault::AnalysisFault;
use crate::plan::Plan;
use resource::resource::Resource;
use taskset::draft::Draft;

/// Accepts a draft on a resource exactly where every task has a bound within its deadline: then the plan is the draft's, and the first
/// places of the two lists hold the tasks' bounds and slacks. A refusal leaves the plan empty and the lists as they were.
/// The resource is only asked.
// Two lists, and no list of pairs: commissioning hands in both, each of its own length.
pub fn analyse<R: Resource>(
    draft: &Draft,
    resource: &R,
    bounds: &mut [u32],
    slacks: &mut [u32],
    plan: &mut Plan,
) -> Result<(), AnalysisFault>
    ensures verdict { let x = R.meaning.seen resource.now in
        let room = min (length bounds.old) (length slacks.old) in
        Verdict (asked_floor draft.now x) x.ways room result }
    ensures later { PlanAfter draft.now (R.meaning.seen resource.now) result plan.new }
    ensures bound_list { let n = table_count draft.now in
        ListAfter result n (plan_bound plan.new) bounds.old bounds.new }
    ensures slack_list { let f = asked_floor draft.now (R.meaning.seen resource.now) in
        let slack = λ (i : ℕ). f.deadline i - plan_bound plan.new i in
        ListAfter result (table_count draft.now) slack slacks.old slacks.new }
{
    let room = bounds.len().min(slacks.len());
    plan.clear();
    let made = Plan::verdict(draft, resource, room)?;
    made.write_bounds(bounds);
    made.write_slacks(slacks);
    *plan = made;
    Ok(())
}
