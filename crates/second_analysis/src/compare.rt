//! Compares what the first analysis left with what the second concludes.
use crate::lines::Line;
use crate::piles::Results;
use crate::second::{Costs, Floor, Verdict};
use analysis::fault::AnalysisFault;
use analysis::plan::Plan;
use refusal::Refusal;
use std::alloc::{AllocError, Global};
use taskset::task::Figures;

// What a list holds in this place before an analysis.
fn mark(place: usize) -> u32 {
    0x00c0_ffee ^ (place % 1_000) as u32
}

/// A list of so many places, each with its mark.
pub fn marked(alloc: Global, places: usize) -> Result<Vec<u32>, AllocError> {
    (0..places).map(mark).collect(alloc)
}

// Have the places from this one on kept their marks?
fn is_kept(list: &[u32], from: usize) -> bool {
    list.iter()
        .enumerate()
        .skip(from)
        .all(|(place, number)| *number == mark(place))
}

// Does the plan keep these tasks apart from one, and no others?
fn has_pairs(plan: &Plan, line: &Line, task: u8) -> bool {
    (0..plan.count()).all(|other| plan.has_pair(other, task)
        == Ok(line.is_apart_from(usize::from(other))))
}

// Does the plan have this line as one of its tasks?
fn has_task(plan: &Plan, line: &Line, task: u8) -> bool {
    plan.figures(task) == Ok(Figures::from(line)) && has_pairs(plan, line, task)
}

fn has_costs(plan: &Plan, costs: &Costs) -> bool {
    (0..8u8)
        .zip(costs)
        .all(|(way, cost)| plan.cost(way) == *cost)
}

impl Results<'_> {
    // Do the lists and the plan tell this bound of this task?
    fn tells_bound(&self, line: &Line, task: u8, bound: u32) -> bool {
        let slack = line.deadline.saturating_sub(bound);
        let place = usize::from(task);
        self.plan.bound(task) == Ok(bound)
            && self.bounds.get(place).copied() == Some(bound)
            && self.slacks.get(place).copied() == Some(slack)
    }

    // Have the lists kept their marks from this place on?
    fn is_kept_from(&self, place: usize) -> bool {
        is_kept(self.bounds, place) && is_kept(self.slacks, place)
    }

    fn is_accepted_so(&self, floor: &Floor<'_>, bounds: &[u32]) -> bool {
        let count = floor.lines.len();
        usize::from(self.plan.count()) == count
            && bounds.len() == count
            && (0..=255u8).zip(floor.lines.iter().zip(bounds)).all(|(task, (line, bound))| {
                self.tells_bound(line, task, *bound) && has_task(self.plan, line, task)
            })
            && has_costs(self.plan, &floor.costs)
            && self.is_kept_from(count)
    }
}

/// Do both agree on the verdict and on all that it leaves?
pub fn agree(
    first: &Result<(), AnalysisFault>,
    left: &Results<'_>,
    second: &Verdict,
    floor: &Floor<'_>,
) -> bool {
    match (first, second) {
        (Ok(()), Ok(bounds)) => left.is_accepted_so(floor, bounds),
        (Err(fault), Err(refused)) => {
            fault.number() == refused.number
                && fault.detail() == refused.detail
                && left.plan.is_empty()
                && left.is_kept_from(0)
        }
        _ => false,
    }
}
