//! The floors that are run: small ones one after the other, and random ones, made as tight as the analysis lets them be.
ghost use Rattle.std.specs.Prelude.{◌<◌};

use analysis::plan::Plan;
use chance::Chance;
use sets::number_set::WaySet;
use taskset::draft::Draft;
use taskset::fault::DraftFault;
use taskset::task::{Figures, Kind};

/// How many floors `small_floor` knows.
pub const SMALL_FLOORS: u32 = 6_400;

// The lowest digit of a number in this base, which is taken off it.
fn digit(rest: &mut u32, base: u32) -> u32
    requires { 0 < base }
    ensures { result < base }
{
    let lowest = *rest % base;
    *rest /= base;
    lowest
}

// Each period up to 4 with each deadline up to it.
const PERIODS_AND_DEADLINES: [(u32, u32); 10] = [
    (1, 1),
    (2, 1),
    (2, 2),
    (3, 1),
    (3, 2),
    (3, 3),
    (4, 1),
    (4, 2),
    (4, 3),
    (4, 4),
];

// A task on way 0 with a period up to 4, any deadline, a budget of 1 or 2, and either kind.
fn small_task(rest: &mut u32) -> Figures {
    let (period, deadline) = PERIODS_AND_DEADLINES[digit(rest, 10) as usize];
    Figures {
        period,
        budget: 1 + digit(rest, 2),
        deadline,
        ways: WaySet::empty().with(0),
        kind: if digit(rest, 2) == 0 {
            Kind::Split
        } else {
            Kind::Whole
        },
    }
}

/// Each floor of two such tasks and any pairs between them, by its number.
pub fn small_floor(number: u32) -> Result<Draft, DraftFault> {
    let mut rest = number;
    let mut draft = Draft::empty();
    let _ = draft.add(small_task(&mut rest))?;
    let _ = draft.add(small_task(&mut rest))?;
    if digit(&mut rest, 2) == 1 {
        draft.add_pair(0, 1)?;
    }
    if digit(&mut rest, 2) == 1 {
        draft.add_pair(1, 0)?;
    }
    Ok(draft)
}

// What the tasks of one random floor have in common. A rate of n says "once in n times", and 0 says never.
// A type of this program's own: the second analysis' floors are drawn from other figures, in another order.
#[derive(Clone, Copy)]
struct Style {
    tasks: u8,
    // the longest period
    scale: u32,
    // the largest budget
    work: u32,
    ways: u32,
    whole_rate: u32,
    pair_rate: u32,
}

fn random_style(chance: &mut Chance, ways: u8) -> Style {
    let few = 1 + chance.below(5);
    let many = 1 + chance.below(16);
    let tasks = if chance.once_in(4) { many } else { few };
    Style {
        tasks: tasks as u8,
        scale: chance.one_of(&[3, 6, 12, 30]).saturating_mul(tasks),
        work: chance.one_of(&[1, 2, 4, 10]),
        ways: 1 + chance.below(u32::from(ways.max(1))),
        whole_rate: chance.one_of(&[0, 4, 2, 1]),
        pair_rate: chance.one_of(&[6, 3, 2, 1]),
    }
}

// Each way draws, the sure one too: one function with the second analysis', where it does not, would take a flag for that.
fn random_ways(chance: &mut Chance, style: &Style) -> WaySet {
    let count = style.ways.min(8) as u8;
    let sure = chance.below(u32::from(count)) as u8;
    (0..count)
        .filter(|_| chance.once_in(3))
        .fold(WaySet::empty().with(sure), WaySet::with)
}

fn random_task(chance: &mut Chance, style: &Style, task: u8) -> Figures {
    let rising = style
        .scale
        .saturating_mul(u32::from(task).saturating_add(1));
    let longest = (rising / u32::from(style.tasks.max(1))).clamp(2, 1_000_000);
    let period = longest / 2 + chance.below(longest - longest / 2 + 1);
    Figures {
        period,
        budget: 1 + chance.below(style.work),
        deadline: period,
        ways: random_ways(chance, style),
        kind: if chance.once_in(style.whole_rate) {
            Kind::Whole
        } else {
            Kind::Split
        },
    }
}

fn add_random_pairs(chance: &mut Chance, draft: &mut Draft, rate: u32) -> Result<(), DraftFault> {
    for from in 0..draft.count() {
        let to = chance.below(u32::from(draft.count())) as u8;
        if from != to && chance.once_in(rate) {
            draft.add_pair(from, to)?;
        }
    }
    Ok(())
}

/// A floor on ways from 0 on, of which there are so many.
pub fn random_floor(chance: &mut Chance, ways: u8) -> Result<Draft, DraftFault> {
    let style = random_style(chance, ways);
    let mut draft = Draft::empty();
    for task in 0..style.tasks.min(16) {
        let _ = draft.add(random_task(chance, &style, task))?;
    }
    for _ in 0..4 {
        add_random_pairs(chance, &mut draft, style.pair_rate)?;
    }
    Ok(draft)
}

// The figures of a task of the plan, without slack: its deadline is its bound. The last task also comes as often as it may.
fn tight_figures(plan: &Plan, task: u8) -> Result<Figures, DraftFault> {
    let mut figures = plan.figures(task)?;
    figures.deadline = plan.bound(task)?;
    if task.saturating_add(1) == plan.count() {
        figures.period = figures.deadline;
    }
    Ok(figures)
}

fn copy_pairs(plan: &Plan, draft: &mut Draft, to: u8) -> Result<(), DraftFault> {
    for from in (0..plan.count()).filter(|from| plan.is_apart(*from, to)) {
        draft.add_pair(from, to)?;
    }
    Ok(())
}

fn tight_tasks(plan: &Plan, draft: &mut Draft) -> Result<(), DraftFault> {
    for task in 0..plan.count() {
        let _ = draft.add(tight_figures(plan, task)?)?;
    }
    Ok(())
}

/// The plan's floor without slack: no bound depends on a deadline, or on the period of the last task.
pub fn without_slack(plan: &Plan) -> Result<Draft, DraftFault> {
    let mut draft = Draft::empty();
    tight_tasks(plan, &mut draft)?;
    for to in 0..plan.count() {
        copy_pairs(plan, &mut draft, to)?;
    }
    Ok(draft)
}
