//! A second analysis against the first: written apart from it, from the rules alone, and run on random floors over several resources.
#![tactic(auto)]

mod compare;
mod floors;
mod lines;
mod piles;
mod second;
mod tally;
mod worked;

use analysis::plan::Plan;
use chance::Chance;
use compare::{agree, marked};
use lines::Line;
use piles::{Results, Shape, Stand};
use refusal::Refusal;
use second::{Floor, Verdict};
use std::alloc::{AllocError, Global};
use std::io;
use tabletext::text;
use tally::Tally;
use taskset::draft::Draft;

const FLOORS: u32 = 20_000;

// How many places a list gets: enough mostly, and now and then one too few.
fn random_places(chance: &mut Chance, tasks: usize) -> usize {
    if chance.once_in(25) {
        tasks.saturating_sub(1)
    } else {
        tasks.saturating_add(chance.below(4) as usize)
    }
}

fn fill_random(chance: &mut Chance, memory: &mut [u8]) {
    for byte in memory.iter_mut() {
        *byte = chance.below(256) as u8;
    }
}

fn is_tight(lines: &[Line], bounds: &[u32]) -> bool {
    lines
        .iter()
        .zip(bounds)
        .any(|(line, bound)| line.deadline == *bound)
}

// What all comparisons share: where their chance comes from, the plan that each leaves to the next, and what has been counted.
#[derive(Drop)]
struct Comparisons {
    alloc: Global,
    chance: Chance,
    plan: Plan,
    tally: Tally,
}

impl Comparisons {
    fn count_verdict(&mut self, shape: Shape, lines: &[Line], second: &Verdict) {
        match second {
            Ok(bounds) => self.tally.count_accepted(shape, is_tight(lines, bounds)),
            Err(refused) => {
                let plan_was_full = !self.plan.is_empty();
                self.tally.count_refused(refused.number, plan_was_full)
            }
        }
    }

    // One floor on one resource, by both.
    fn compare_on(&mut self, stand: &Stand) -> Result<(), AllocError> {
        let costs = stand.costs();
        let lines = floors::random_floor(self.alloc, &mut self.chance, &costs)?;
        let floor = Floor {
            lines: &lines,
            costs,
        };
        let mut bounds = marked(self.alloc, random_places(&mut self.chance, lines.len()))?;
        let mut slacks = marked(self.alloc, random_places(&mut self.chance, lines.len()))?;
        let second = floor.conclude(self.alloc, bounds.len().min(slacks.len()))?;
        self.count_verdict(stand.shape, &lines, &second);
        let Ok(draft) = floors::draft_of(&lines) else {
            self.tally.count_floor(lines.len(), false);
            return Ok(());
        };
        let mut memory = [0u8; 300];
        fill_random(&mut self.chance, &mut memory);
        let mut results = Results {
            bounds: &mut bounds,
            slacks: &mut slacks,
            plan: &mut self.plan,
        };
        let first = stand.analyse(&mut memory, &draft, &mut results);
        let agreed = agree(&first, &results, &second, &floor);
        self.tally.count_floor(lines.len(), agreed);
        Ok(())
    }
}

fn compare_all(alloc: Global) -> Result<Tally, AllocError> {
    let mut comparisons = Comparisons {
        alloc,
        chance: Chance::seeded(20_261_118),
        plan: Plan::empty(),
        tally: Tally::default(),
    };
    for _ in 0..FLOORS {
        let stand = piles::random_stand(&mut comparisons.chance);
        comparisons.compare_on(&stand)?;
    }
    Ok(comparisons.tally)
}

// A name that begins with a capital letter.
fn print_odd_word(out: &impl Print) -> io::Result<()> {
    let mut draft = Draft::empty();
    match text::read(b"task Pick 10 1 10 0 split", &mut draft) {
        Ok(()) => println!(out; "task Pick 10 1 10 0 split: read"),
        Err(fault) => {
            let number = fault.number();
            let detail = fault.detail();
            let word = fault.word();
            println!(out; "task Pick 10 1 10 0 split: no {number} {detail} {word}")
        }
    }
}

fn main(rt: HostRuntime) -> io::Result<()> {
    let tally = compare_all(rt.alloc())?;
    println!(rt; "{tally}")?;
    let by_hand = worked::are_as_by_hand(rt.alloc())?;
    println!(rt; "floors worked by hand come out so: {by_hand}")?;
    print_odd_word(&rt)
}
