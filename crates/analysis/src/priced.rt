//! A draft on ways whose costs are known: all that a floor is.
ghost use Rattle.std.specs.Prelude.{◌≡◌, ℕ, ◌<◌, ◌≤◌, ◌&&◌, cond};
ghost use Rattle.sets.specs.Below.{some_below};
ghost use Rattle.sets.specs.Sets.{has};
ghost use Rattle.taskset.specs.Table.{count as table_count, IsLawful};
ghost use Rattle.analysis.specs.Charges.{allowance, guarded, resumption, threatens};
ghost use Rattle.analysis.specs.FloorOf.{figures_at};

use crate::costs::WayCosts;
use crate::row::Row;
use sets::number_set::WaySet;
use taskset::draft::Draft;
use taskset::task::Figures;

/// A draft, how many tasks it has, and what each of the ways that it runs on costs.
#[derive(Clone, Copy)]
pub struct PricedDraft {
    pub draft: Draft,
    count: u8,
    costs: WayCosts,
    ghost counted: { count ≡ table_count draft },
    ghost lawful: { IsLawful draft },
}

impl PricedDraft {
    ghost use Rattle.analysis.specs.PricedFloor.{priced_floor};
    ghost use Rattle.analysis.specs.Rows.{row_of};

    /// A draft on ways of these costs.
    pub fn new(draft: &Draft, costs: WayCosts) -> PricedDraft
        ensures draft { result.draft ≡ draft.now }
        ensures costs { result.costs ≡ costs }
    {
        PricedDraft {
            draft: *draft,
            count: draft.count(),
            costs,
        }
    }

    /// How many tasks there are.
    pub fn count(&self) -> u8
        ensures value { result ≡ (priced_floor self.now).tasks }
        ensures few { result ≤ 16 }
    {
        self.count
    }

    /// The figures of a task; all 0, without a way, where the number is no task's.
    pub fn figures_at(&self, task: u8) -> Figures
        ensures { result ≡ figures_at self.now.draft.tasks task }
    {
        self.draft.figures(task).unwrap_or(Row::blank().figures)
    }

    /// Does the task use the way?
    pub fn uses(&self, task: u8, way: u8) -> bool
        ensures { result ≡ (priced_floor self.now).uses task way }
    {
        self.figures_at(task).ways.contains(way)
    }

    /// The cost of a way; 0 past the last.
    pub fn cost(&self, way: u8) -> u16
        ensures { result ≡ (priced_floor self.now).cost way }
    {
        self.costs.of(way)
    }

    /// Must the task `to` see no trace of the task `from`? Not where a number is no task's.
    pub fn is_apart(&self, from: u8, to: u8) -> bool
        ensures { result ≡ (priced_floor self.now).noleak from to }
    {
        self.draft.has_pair(from, to).unwrap_or(false)
    }

    // The ways on which the task `from` may leave a trace that the other task `to` must not see.
    fn threats(&self, from: u8, to: u8) -> WaySet
        ensures { (w : ℕ) → has result w ≡ threatens (priced_floor self.now) from to w }
    {
        if from != to && self.is_apart(from, to) {
            self.figures_at(from).ways
        } else {
            WaySet::empty()
        }
    }

    // The ways that are guarded for a task: those of its ways on which any other task may leave a trace that it must not see.
    fn guarded_ways(&self, task: u8) -> WaySet
        ensures { (w : ℕ) → has result w ≡ guarded (priced_floor self.now) task w }
    {
        // a fold would be no plainer: its proof needs the same sentence, about the ways so far
        let ways = self.figures_at(task).ways;
        let mut guarded = WaySet::empty();
        for other in 0..self.count() {
            // all of them: the others can add none
            if guarded == ways {
                return ways;
            }
            guarded = guarded.union(ways.intersection(self.threats(other, task)));
        }
        guarded
    }

    // The cost of a way that is in the set, and 0 of any other.
    fn cost_among(&self, ways: WaySet, way: u8) -> u32
        ensures { result ≡ cond (has ways way) ((priced_floor self.now).cost way) 0 }
    {
        if ways.contains(way) {
            u32::from(self.cost(way))
        } else {
            0
        }
    }

    /// The row of a task.
    pub fn row(&self, task: u8) -> Row
        ensures { result ≡ row_of self.now task }
    {
        let figures = self.figures_at(task);
        let guarded = self.guarded_ways(task);
        if guarded.is_empty() {
            return Row {
                figures,
                ..Row::blank()
            };
        }
        let costs = (0..8).map(|way| self.cost_among(guarded, way));
        let dearest = (0..8).map(|way| self.cost_among(guarded, way));
        Row {
            figures,
            scrub: costs.sum(),
            dearest: dearest.max().unwrap_or(0),
        }
    }

    // What task k has to be scrubbed for again, where task j preempts it. A sheet asks the same of the rows that it keeps; here no row is
    // made but those that are asked for.
    fn resumption(&self, j: u8, k: u8) -> u32
        ensures { result ≡ resumption (priced_floor self.now) j k }
    {
        let is_whole = self.figures_at(k).kind.is_whole();
        if j < k && !is_whole {
            self.row(k).scrub
        } else {
            0
        }
    }

    /// The ticks of scrubbing that one job of task j brings into a run: its own scrubs, and those of the task that it makes resume.
    pub fn allowance(&self, j: u8) -> u32
        ensures { result ≡ allowance (priced_floor self.now) j }
    {
        let costs = (0..self.count()).map(|k| self.resumption(j, k));
        self.row(j).scrub + costs.max().unwrap_or(0)
    }
}
