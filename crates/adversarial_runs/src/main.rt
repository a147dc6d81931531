//! Runs of the dispatcher on floors that the analysis accepts, over several resources, with calls in hostile orders. What it promises of every
//! run is checked from outside, by books of this program's own.
#![tactic(auto)]

mod books;
mod counts;
mod floors;
mod orders;
mod trial;
mod watch;

use chance::Chance;
use counts::{Counts, Violations};
use floors::SMALL_FLOORS;
use pair::Pair;
use reserve::Reserve;
use row_banks::banks::RowBanks;
use slow_board::board::SlowBoard;
use std::alloc::AllocError;
use std::io;
use trial::Season;
use way_cache::cache::WayCache;

const RANDOM_FLOORS: u32 = 12_000;

// How many ticks each run of a random floor has.
const TICKS: u32 = 100;

// Every small floor, on row banks and where each scrub takes two calls.
fn small_floors(season: &mut Season) -> Result<(), AllocError> {
    for draft in (0..SMALL_FLOORS).filter_map(|number| floors::small_floor(number).ok()) {
        season.trial(&draft, &mut RowBanks::closed(), 12)?;
        season.trial(&draft, &mut SlowBoard::of_even_costs(1), 12)?;
    }
    Ok(())
}

// A board whose scrubs take up to this many calls.
// A maker of this program's own: it draws the costs one by one, and the order of draws is what the output hangs on.
fn slow_board(chance: &mut Chance, most: u32) -> SlowBoard {
    let mut board = SlowBoard::of_even_costs(0);
    for way in 0..8u8 {
        board.set_cost(way, chance.below(most.min(1_000)) as u16);
    }
    board
}

// The resource of a random floor.
// An enum of this program's own, with its table: the second analysis' floors are on other cases.
#[derive(Clone, Copy, PartialEq, Eq)]
enum Shape {
    Cache,
    Banks,
    Slow,
    /// a cache and row banks
    Both,
    /// both of them with ways hidden
    BothReserved,
    /// a slow board beside a cache with ways hidden
    SlowAndReserved,
}

impl Shape {
    const ALL: [Shape; 6] = [
        Shape::Cache,
        Shape::Banks,
        Shape::Slow,
        Shape::Both,
        Shape::BothReserved,
        Shape::SlowAndReserved,
    ];

    // How many ways there are, where a reserve hides so many.
    fn ways(self, hidden: u8) -> u8 {
        match self {
            Shape::BothReserved | Shape::SlowAndReserved => 8u8.saturating_sub(hidden),
            _ => 8,
        }
    }
}

// A random floor on one of several resources.
fn random_trial(season: &mut Season) -> Result<(), AllocError> {
    let mut memory = [255u8; 256];
    let mut cache = WayCache::over(&mut memory);
    let mut banks = RowBanks::closed();
    let mut slow = slow_board(&mut season.chance, 5);
    let hidden = season.chance.below(3) as u8;
    let shape = Shape::ALL[season.chance.below(6) as usize];
    let Ok(draft) = floors::random_floor(&mut season.chance, shape.ways(hidden)) else {
        season.violations.answers.add(1);
        return Ok(());
    };
    // A match, and no closure or `dyn`: each shape is a resource of another type, and only its arm makes it.
    match shape {
        Shape::Cache => season.trial(&draft, &mut cache, TICKS),
        Shape::Banks => season.trial(&draft, &mut banks, TICKS),
        Shape::Slow => season.trial(&draft, &mut slow, TICKS),
        Shape::Both => season.trial(&draft, &mut Pair::new(cache, banks), TICKS),
        Shape::BothReserved => {
            let both = Pair::new(cache, banks);
            season.trial(&draft, &mut Reserve::new(hidden, both), TICKS)
        }
        Shape::SlowAndReserved => {
            let reserve = Reserve::new(hidden, cache);
            season.trial(&draft, &mut Pair::new(slow, reserve), TICKS)
        }
    }
}

fn random_floors(season: &mut Season) -> Result<(), AllocError> {
    for _ in 0..RANDOM_FLOORS {
        random_trial(season)?;
    }
    Ok(())
}

fn main(rt: HostRuntime) -> io::Result<()> {
    let mut season = Season {
        alloc: rt.alloc(),
        chance: Chance::seeded(40_400),
        counts: Counts::default(),
        violations: Violations::default(),
    };
    small_floors(&mut season)?;
    random_floors(&mut season)?;
    println!(rt; "{}", season.counts)?;
    println!(rt; "{}", season.violations)
}
