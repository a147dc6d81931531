//! A reserve: any resource with its lowest ways hidden. Way w above is way w + k of the resource below, where k ways are hidden.
#![tactic(auto)]

ghost use Rattle.std.specs.Prelude.{◌≡◌, ℕ, ◌+◌, ◌-◌, ◌<◌, ◌≤◌, ◌&&◌, MatchOption, nat_le, nat_lt};
ghost use Rattle.sets.specs.Sets.{has};
ghost use Rattle.resource.specs.Seen.{Sound};
ghost use Rattle.reserve.specs.Reserves.{hidden_ways, reserve_seen, reserve_meaning};

use resource::answer::Progress;
use resource::resource::Resource;
use sets::number_set::WaySet;

/// How many ways are hidden, as it was asked for, and the resource below.
#[derive(Drop)]
pub struct Reserve<R> {
    pub hidden: u8,
    pub rest: R,
}

impl<R> Reserve<R> {
    /// Hides the lowest ways; a number past 8 counts as 8.
    pub fn new(hidden: u8, rest: R) -> Reserve<R>
        ensures hidden { result.hidden ≡ hidden }
        ensures rest { result.rest ≡ rest }
    {
        Reserve { hidden, rest }
    }

    /// Takes the reserve apart: the number that it was made with, and the resource below.
    pub fn into_parts(self) -> (u8, R)
        ensures hidden { result.0 ≡ self.hidden }
        ensures rest { result.1 ≡ self.rest }
    {
        (self.hidden, self.rest)
    }

    // How many ways are hidden: capped here and not by `new`, since `into_parts` gives back the number that the reserve was made with.
    fn hidden_ways(&self) -> u8
        ensures { result ≡ hidden_ways self.now }
    {
        self.hidden.min(8)
    }
}

impl<R: Resource> Reserve<R> {
    // The way below that this one is, or none where the reserve has no such way.
    fn below(&self, way: u8) -> Option<u8>
        ensures sound { Sound (reserve_seen R.meaning self.now) }
        ensures found { let count = (reserve_seen R.meaning self.now).ways in
            let k = hidden_ways self.now in
            MatchOption result (count ≤ way) (λ b. (way < count) × (b ≡ way + k)) }
    {
        if way < self.way_count() {
            Some(way + self.hidden_ways())
        } else {
            None
        }
    }

    // The ways below that these are.
    fn all_below(&self, ways: WaySet) -> WaySet
        ensures { let count = (reserve_seen R.meaning self.now).ways in
            let k = hidden_ways self.now in
            (w : ℕ) → has result w
            ≡ ((nat_le k w && nat_lt w 8) && (has ways (w - k) && nat_lt (w - k) count)) }
    {
        let own = ways.below(self.way_count());
        own.raised(self.hidden_ways())
    }
}

impl<R: Resource> Resource for Reserve<R> {
    ghost meaning = { reserve_meaning R.meaning };

    fn way_count(&self) -> u8 {
        self.rest.way_count().saturating_sub(self.hidden_ways())
    }

    fn cost_of(&self, way: u8) -> u16 {
        match self.below(way) {
            Some(below) => self.rest.cost_of(below),
            None => 0,
        }
    }

    fn is_clean(&self, way: u8) -> bool {
        match self.below(way) {
            Some(below) => self.rest.is_clean(below),
            None => true,
        }
    }

    fn run(&mut self, task: u8, ways: WaySet, address: u32) {
        let below = self.all_below(ways);
        self.rest.run(task, below, address);
    }

    fn scrub(&mut self, way: u8) -> Progress {
        match self.below(way) {
            Some(below) => self.rest.scrub(below),
            None => Progress::Done,
        }
    }
}
