//! The resources that floors are analysed on, and what their ways cost by a plain reading of what each is.
use crate::second::Costs;
use analysis::analyse::analyse;
use analysis::fault::AnalysisFault;
use analysis::plan::Plan;
use chance::Chance;
use pair::Pair;
use reserve::Reserve;
use resource::resource::Resource;
use row_banks::banks::RowBanks;
use slow_board::board::SlowBoard;
use std::array;
use taskset::draft::Draft;
use way_cache::cache::WayCache;

/// The resource that a floor is analysed on.
// An enum of this program's own, with its table: the hostile runs' floors are on other cases.
#[derive(Clone, Copy)]
pub enum Shape {
    Cache,
    Banks,
    Slow,
    /// a cache and row banks
    Both,
    /// a cache with ways hidden
    Reserved,
    /// a cache with ways hidden, together with row banks and a slow board
    Pile,
}

impl Shape {
    const ALL: [Shape; 6] = [
        Shape::Cache,
        Shape::Banks,
        Shape::Slow,
        Shape::Both,
        Shape::Reserved,
        Shape::Pile,
    ];
}

/// A shape with its sizes: the bytes that a cache gets, the ways hidden, and how many calls beyond one a slow scrub takes on each way.
#[derive(Clone, Copy)]
pub struct Stand {
    pub shape: Shape,
    pub bytes: usize,
    pub hidden: u8,
    pub extras: [u16; 8],
}

/// The lists and the plan that an analysis fills.
#[derive(Drop)]
pub struct Results<'a> {
    pub bounds: &'a mut [u32],
    pub slacks: &'a mut [u32],
    pub plan: &'a mut Plan,
}

impl Results<'_> {
    // The analysis of a draft on a resource, which fills the lists and the plan.
    fn fill<R: Resource>(&mut self, draft: &Draft, resource: &R) -> Result<(), AnalysisFault> {
        analyse(draft, resource, self.bounds, self.slacks, self.plan)
    }
}

fn random_extra(chance: &mut Chance) -> u16 {
    let extra = if chance.once_in(60) {
        998 + chance.below(4)
    } else if chance.once_in(200) {
        65_534 + chance.below(2)
    } else if chance.once_in(4) {
        chance.below(40)
    } else {
        chance.below(4)
    };
    extra as u16
}

/// Any shape, with sizes that are mostly the usual ones.
pub fn random_stand(chance: &mut Chance) -> Stand {
    let shape = Shape::ALL[chance.below(6) as usize];
    let bytes = if chance.once_in(3) {
        chance.below(300)
    } else {
        256
    };
    let hidden = chance.below(10) as u8;
    let extras = array::from_fn(|_| random_extra(chance));
    Stand {
        shape,
        bytes: bytes as usize,
        hidden: if chance.once_in(8) {
            hidden
        } else {
            hidden % 4
        },
        extras,
    }
}

// 2 for each way of 32 bytes, up to eight.
fn cache_costs(bytes: usize) -> Costs {
    array::from_fn(|way| if way < bytes / 32 { 2 } else { 0 })
}

fn slow_costs(extras: &Costs) -> Costs {
    extras.map(|extra| extra.saturating_add(1))
}

// What the ways cost that both have.
fn joined(first: &Costs, second: &Costs) -> Costs {
    array::from_fn(|way| match (first[way], second[way]) {
        (0, _) | (_, 0) => 0,
        (a, b) => a.saturating_add(b),
    })
}

// What is left without the lowest ways.
fn without_lowest(costs: &Costs, hidden: u8) -> Costs {
    let hidden = usize::from(hidden);
    array::from_fn(|way| costs.get(way.saturating_add(hidden)).copied().unwrap_or(0))
}

// A board whose scrubs take so many calls beyond one.
// A maker of this program's own: the costs were drawn one by one before, and the order of draws is what the output hangs on.
fn slow_board(extras: &Costs) -> SlowBoard {
    let mut board = SlowBoard::of_even_costs(0);
    for (way, extra) in extras.iter().enumerate() {
        board.set_cost(way as u8, *extra);
    }
    board
}

impl Stand {
    /// What each way costs.
    pub fn costs(&self) -> Costs {
        let cache = cache_costs(self.bytes);
        let slow = slow_costs(&self.extras);
        match self.shape {
            Shape::Cache => cache,
            Shape::Banks => [1; 8],
            Shape::Slow => slow,
            Shape::Both => joined(&cache, &[1; 8]),
            Shape::Reserved => without_lowest(&cache, self.hidden),
            Shape::Pile => joined(
                &without_lowest(&cache, self.hidden),
                &joined(&[1; 8], &slow),
            ),
        }
    }

    /// The first analysis, on the resource as it is built from its parts, over memory as it stands.
    pub fn analyse(
        &self,
        memory: &mut [u8],
        draft: &Draft,
        results: &mut Results<'_>,
    ) -> Result<(), AnalysisFault> {
        let used = self.bytes.min(memory.len());
        let cache = WayCache::over(&mut memory[0..used]);
        let banks = RowBanks::closed();
        let slow = slow_board(&self.extras);
        // A match, and no closure or `dyn`: each shape is a resource of another type, and only its arm makes it.
        match self.shape {
            Shape::Cache => results.fill(draft, &cache),
            Shape::Banks => results.fill(draft, &banks),
            Shape::Slow => results.fill(draft, &slow),
            Shape::Both => results.fill(draft, &Pair::new(cache, banks)),
            Shape::Reserved => results.fill(draft, &Reserve::new(self.hidden, cache)),
            Shape::Pile => {
                let reserve = Reserve::new(self.hidden, cache);
                results.fill(draft, &Pair::new(reserve, Pair::new(banks, slow)))
            }
        }
    }
}
