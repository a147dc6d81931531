//! Random floors in plain figures, and the drafts of them.
ghost use Rattle.std.specs.Prelude.{◌≤◌};

use crate::lines::Line;
use crate::second::{Costs, Floor};
use chance::Chance;
use sets::number_set::WaySet;
use std::alloc::{AllocError, Global};
use taskset::draft::Draft;
use taskset::fault::DraftFault;
use taskset::task::{Figures, Kind};

// What the tasks of one floor have in common. A rate of n says "once in n times", and 0 says never.
// A type of this program's own: the floors of the hostile runs are drawn from other figures, in another order.
#[derive(Clone, Copy)]
struct Style {
    tasks: u32,
    // the longest period
    scale: u32,
    // about how much of the core all budgets together may ask for, in hundredths
    load: u32,
    // how many ways are used, from way 0 on
    ways: u32,
    whole_rate: u32,
    pair_rate: u32,
    short_deadline_rate: u32,
    // lower tasks have longer periods; a flag, as it has no value beside it
    rising: bool,
}

// How many ways there are: those up to the last that costs something.
fn way_count(costs: &Costs) -> u32
    ensures { result ≤ 8 }
{
    costs
        .iter()
        .rposition(|cost| *cost > 0)
        .map_or(0, |last| last as u32 + 1)
}

fn random_style(chance: &mut Chance, there: u32) -> Style {
    let few = 1 + chance.below(4);
    let many = 1 + chance.below(16);
    let huge = chance.once_in(40);
    let tasks = if huge || chance.once_in(3) { few } else { many };
    let scale: u32 = if huge {
        chance.one_of(&[50_000, 250_000])
    } else {
        chance.one_of(&[2, 5, 12, 30, 90])
    };
    Style {
        tasks,
        scale: scale.saturating_mul(tasks),
        load: 3 + chance.below(60),
        ways: 1 + chance.below(there.max(1)),
        whole_rate: chance.one_of(&[0, 4, 2, 1]),
        pair_rate: chance.one_of(&[0, 12, 4, 2, 1]),
        short_deadline_rate: chance.one_of(&[0, 0, 8, 3]),
        rising: !chance.once_in(4),
    }
}

// The sure way draws nothing: one function with the hostile runs', where it does, would take a flag for that.
fn random_ways(chance: &mut Chance, style: &Style) -> u8 {
    let count = style.ways.min(8);
    let sure = chance.below(count);
    (0..count).fold(0, |ways, way| {
        if way == sure || chance.once_in(4) {
            ways | 1 << way
        } else {
            ways
        }
    })
}

fn random_apart(chance: &mut Chance, style: &Style, task: u32) -> u16 {
    let count = style.tasks.min(16);
    let rate = style.pair_rate;
    (0..count).fold(0, |apart, other| {
        if other != task && chance.once_in(rate) {
            apart | 1 << other
        } else {
            apart
        }
    })
}

fn random_line(chance: &mut Chance, style: &Style, task: u32) -> Line {
    let tasks = style.tasks.max(1);
    let longest = if style.rising {
        (style.scale.saturating_mul(task.saturating_add(1)) / tasks).max(1)
    } else {
        style.scale.max(1)
    };
    let half = longest / 2;
    let period = (1 + half / 2 + chance.below(longest - half / 2)).min(1_000_000);
    let share = (period.saturating_mul(style.load) / 100 / tasks).saturating_mul(2);
    let budget = 1 + chance.below(share.min(60_000));
    let deadline = if chance.once_in(style.short_deadline_rate) {
        1 + chance.below(period)
    } else {
        period
    };
    Line {
        period,
        budget,
        deadline,
        whole: chance.once_in(style.whole_rate),
        ways: random_ways(chance, style),
        apart: random_apart(chance, style, task),
    }
}

// Gives one task a deadline at its bound, or one tick short of it.
fn sharpen(
    alloc: Global,
    chance: &mut Chance,
    lines: &mut [Line],
    costs: &Costs,
) -> Result<(), AllocError> {
    let task = chance.below(lines.len().min(16) as u32) as usize;
    let floor = Floor {
        lines,
        costs: *costs,
    };
    if let Some(bound) = floor.bound_in_period(alloc, task)? {
        let deadline = bound.saturating_sub(chance.below(2));
        if let Some(line) = lines.get_mut(task) {
            line.deadline = deadline.max(1);
        }
    }
    Ok(())
}

/// A floor of up to sixteen tasks, mostly on ways that are there.
pub fn random_floor(
    alloc: Global,
    chance: &mut Chance,
    costs: &Costs,
) -> Result<Vec<Line>, AllocError> {
    if chance.once_in(80) {
        return Ok(Vec::new(alloc));
    }
    let there = way_count(costs);
    let mut style = random_style(chance, there);
    if chance.once_in(12) {
        style.ways = 8;
    }
    let mut lines: Vec<Line> = (0..style.tasks.min(16))
        .map(|task| random_line(chance, &style, task))
        .collect(alloc)?;
    if chance.once_in(2) {
        sharpen(alloc, chance, &mut lines, costs)?;
    }
    Ok(lines)
}

fn ways_of(line: &Line) -> WaySet {
    (0..8u8)
        .filter(|way| line.uses(usize::from(*way)))
        .fold(WaySet::empty(), WaySet::with)
}

impl From<&Line> for Figures {
    fn from(line: &Line) -> Figures {
        Figures {
            period: line.period,
            budget: line.budget,
            deadline: line.deadline,
            ways: ways_of(line),
            kind: if line.whole { Kind::Whole } else { Kind::Split },
        }
    }
}

fn add_pairs(draft: &mut Draft, line: &Line, task: u8) -> Result<(), DraftFault> {
    for other in (0..16u8).filter(|other| line.is_apart_from(usize::from(*other))) {
        draft.add_pair(other, task)?;
    }
    Ok(())
}

fn add_tasks(draft: &mut Draft, lines: &[Line]) -> Result<(), DraftFault> {
    for line in lines {
        let _ = draft.add(Figures::from(line))?;
    }
    Ok(())
}

/// The draft of a floor.
pub fn draft_of(lines: &[Line]) -> Result<Draft, DraftFault> {
    let mut draft = Draft::empty();
    add_tasks(&mut draft, lines)?;
    for (task, line) in (0..=255u8).zip(lines) {
        add_pairs(&mut draft, line, task)?;
    }
    Ok(draft)
}
