//! The second analysis: the rules worked out in the plainest way, by counting up from the smallest number.
ghost use Rattle.std.specs.Prelude.{◌<◌};

use crate::lines::Line;
use std::alloc::{AllocError, Global};
use std::array;

/// What each of the eight ways costs; 0 where there is no such way.
pub type Costs = [u16; 8];

/// Why a floor is refused: the refusal's number and its detail.
// Two numbers, and no refusal of the library: the second analysis shares no type with the first, and the numbers are what is compared.
#[derive(Clone, Copy, PartialEq, Eq)]
pub struct Refused {
    pub number: u8,
    pub detail: usize,
}

impl Refused {
    fn new(number: u8, detail: usize) -> Refused {
        Refused { number, detail }
    }
}

/// What is concluded about a floor: a bound for each task, or a refusal.
pub type Verdict = Result<Vec<u32>, Refused>;

/// The tasks of a floor, and what its ways cost.
#[derive(Clone, Copy)]
pub struct Floor<'a> {
    pub lines: &'a [Line],
    pub costs: Costs,
}

// A task with the cost of scrubbing all its guarded ways, and of scrubbing the dearest of them.
#[derive(Clone, Copy)]
struct Row {
    line: Line,
    scrubs: u64,
    dearest: u64,
}

// A task of higher priority: its period, and what each of its jobs takes.
#[derive(Clone, Copy)]
struct Rival {
    period: u64,
    take: u64,
    ghost comes_again: { 0 < period },
}

impl Row {
    // What a job takes that nobody breaks.
    fn own(&self) -> u64 {
        u64::from(self.line.budget).saturating_add(self.scrubs)
    }

    // How long a job, once begun, may keep the core against everybody.
    fn hold(&self) -> u64 {
        if self.line.whole {
            self.own().saturating_sub(1)
        } else {
            self.dearest.saturating_sub(1)
        }
    }
}

impl Rival {
    // How many of its jobs begin in `ticks` ticks, the first at once.
    fn jobs_within(&self, ticks: u64) -> u64 {
        ticks.div_ceil(self.period)
    }

    // The same, with one more where a job also begins at the last tick's end.
    fn jobs_up_to(&self, ticks: u64) -> u64 {
        (ticks / self.period).saturating_add(1)
    }
}

impl Floor<'_> {
    // Does another task that must not leak to this one use the way too?
    fn is_guarded(&self, task: usize, line: &Line, way: usize) -> bool {
        line.uses(way)
            && self.lines.iter().enumerate().any(|(other, its)| {
                other != task && its.uses(way) && line.is_apart_from(other)
            })
    }

    // What the guarded ways of a task cost, and 0 for the others.
    fn guarded_costs(&self, task: usize, line: &Line) -> Costs {
        array::from_fn(|way| {
            if self.is_guarded(task, line, way) {
                self.costs.get(way).copied().unwrap_or(0)
            } else {
                0
            }
        })
    }

    fn row(&self, task: usize, line: &Line) -> Row {
        let guarded = self.guarded_costs(task, line);
        Row {
            line: *line,
            scrubs: guarded
                .iter()
                .map(|cost| u64::from(*cost))
                .fold(0, u64::saturating_add),
            dearest: guarded.iter().max().copied().map_or(0, u64::from),
        }
    }

    fn rows(&self, alloc: Global) -> Result<Vec<Row>, AllocError> {
        self.lines
            .iter()
            .enumerate()
            .map(|(task, line)| self.row(task, line))
            .collect(alloc)
    }

    /// The bound of one task of the floor, as if its deadline were its period.
    pub fn bound_in_period(&self, alloc: Global, task: usize) -> Result<Option<u32>, AllocError> {
        let rows = self.rows(alloc)?;
        let Some(row) = rows.get(task) else {
            return Ok(None);
        };
        let mut free = *row;
        free.line.deadline = row.line.period;
        bound_of(alloc, &rows, task, &free)
    }

    // Does the task use a way that is not there?
    fn strays(&self, line: &Line) -> bool {
        self.costs
            .iter()
            .enumerate()
            .any(|(way, cost)| *cost == 0 && line.uses(way))
    }

    fn first_stray(&self) -> Option<usize> {
        self.lines.iter().position(|line| self.strays(line))
    }

    fn is_used(&self, way: usize) -> bool {
        self.lines.iter().any(|line| line.uses(way))
    }

    fn first_dear(&self) -> Option<usize> {
        self.costs
            .iter()
            .enumerate()
            .position(|(way, cost)| *cost > 1_000 && self.is_used(way))
    }

    // Is the floor one whose bounds can be asked for, with lists of so many places at least?
    fn check(&self, places: usize) -> Result<(), Refused> {
        if self.lines.is_empty() {
            return Err(Refused::new(10, 0));
        }
        if let Some(task) = self.first_stray() {
            return Err(Refused::new(11, task));
        }
        if let Some(way) = self.first_dear() {
            return Err(Refused::new(12, way));
        }
        if places < self.lines.len() {
            return Err(Refused::new(13, 0));
        }
        Ok(())
    }

    /// The verdict on a floor, with lists of so many places at least.
    pub fn conclude(&self, alloc: Global, places: usize) -> Result<Verdict, AllocError> {
        // Two kinds of answer in one, and so no `?`: want of memory is an error of the program, a refusal is a verdict.
        match self.check(places) {
            Ok(()) => bounds_of(alloc, &self.rows(alloc)?),
            Err(refused) => Ok(Err(refused)),
        }
    }
}

// The dearest resumption of a split task below `above`, down to `task`.
fn resumption(rows: &[Row], above: usize, task: usize) -> u64 {
    rows.iter()
        .take(task.saturating_add(1))
        .skip(above.saturating_add(1))
        .filter(|row| !row.line.whole)
        .map(|row| row.scrubs)
        .max()
        .unwrap_or(0)
}

// The longest that a task below keeps the core; below the first, the task itself counts too.
fn blocking(rows: &[Row], task: usize) -> u64 {
    rows.iter()
        .skip(task.max(1))
        .map(|row| row.hold())
        .max()
        .unwrap_or(0)
}

fn rival_at(rows: &[Row], j: usize, task: usize, row: &Row) -> Rival {
    Rival {
        period: u64::from(row.line.period).max(1),
        take: row.own().saturating_add(resumption(rows, j, task)),
    }
}

fn rivals_of(alloc: Global, rows: &[Row], task: usize) -> Result<Vec<Rival>, AllocError> {
    rows.iter()
        .enumerate()
        .take(task)
        .map(|(j, row)| rival_at(rows, j, task, row))
        .collect(alloc)
}

// What the rivals take if each has so many jobs.
fn taken<F: Fn(&Rival) -> u64>(rivals: &[Rival], jobs: F) -> u64
    requires { F.IsAlwaysCallable jobs }
{
    rivals.iter().fold(0u64, |sum, rival| {
        sum.saturating_add(jobs(rival).saturating_mul(rival.take))
    })
}

// The first r from 1 on that covers the task's own job, the blocking and its rivals' jobs, up to the deadline.
fn split_bound(row: &Row, rivals: &[Rival], blocked: u64) -> Option<u32> {
    let base = blocked.saturating_add(row.own());
    (1..=row.line.deadline).find(|r| {
        let ticks = u64::from(*r);
        base.saturating_add(taken(rivals, |rival| rival.jobs_within(ticks))) <= ticks
    })
}

// The first start s from 0 on that covers the blocking and the rivals' jobs, and then the whole job without a break.
fn whole_bound(row: &Row, rivals: &[Rival], blocked: u64) -> Option<u32> {
    let start = (0..=row.line.deadline).find(|s| {
        let ticks = u64::from(*s);
        blocked.saturating_add(taken(rivals, |rival| rival.jobs_up_to(ticks))) <= ticks
    })?;
    let bound = u64::from(start).saturating_add(row.own());
    u32::try_from(bound)
        .ok()
        .filter(|bound| *bound <= row.line.deadline)
}

fn bound_of(
    alloc: Global,
    rows: &[Row],
    task: usize,
    row: &Row,
) -> Result<Option<u32>, AllocError> {
    let rivals = rivals_of(alloc, rows, task)?;
    let blocked = blocking(rows, task);
    if row.line.whole {
        Ok(whole_bound(row, &rivals, blocked))
    } else {
        Ok(split_bound(row, &rivals, blocked))
    }
}

// The bounds of all tasks, or a refusal for the first that has none.
fn bounds_of(alloc: Global, rows: &[Row]) -> Result<Verdict, AllocError> {
    let mut bounds = Vec::new(alloc);
    for (task, row) in rows.iter().enumerate() {
        match bound_of(alloc, rows, task, row)? {
            Some(bound) => bounds.push(bound)?,
            // Two kinds of answer in one, and so no `?`: want of memory is an error of the program, a refusal is a verdict.
            None => return Ok(Err(Refused::new(14, task))),
        }
    }
    Ok(Ok(bounds))
}
