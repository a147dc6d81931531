//! A pair: any two resources held as one. A task that runs on a way runs on it in both, and the way is clean once it is clean in both.
#![tactic(auto)]

ghost use Rattle.std.specs.Prelude.{◌≡◌, ◌&&◌};
ghost use Rattle.resource.specs.Seen.{Sound, clean};
ghost use Rattle.resource.specs.Meaning.{Ran};
ghost use Rattle.pair.specs.Both.{shared_ways};
ghost use Rattle.pair.specs.Pairs.{pair_meaning, Steps};

use resource::answer::Progress;
use resource::resource::Resource;
use sets::number_set::WaySet;

/// Two resources; way w of the pair is way w of both.
#[derive(Drop)]
pub struct Pair<A, B> {
    pub first: A,
    pub second: B,
}

impl<A, B> Pair<A, B> {
    /// Holds the two as one.
    pub fn new(first: A, second: B) -> Pair<A, B>
        ensures first { result.first ≡ first }
        ensures second { result.second ≡ second }
    {
        Pair { first, second }
    }

    /// Takes the pair apart.
    pub fn into_parts(self) -> (A, B)
        ensures first { result.0 ≡ self.first }
        ensures second { result.1 ≡ self.second }
    {
        (self.first, self.second)
    }
}

impl<A: Resource, B: Resource> Pair<A, B> {
    // The number of ways that both have.
    fn shared(&self) -> u8
        ensures first { Sound (A.meaning.seen self.now.first) }
        ensures second { Sound (B.meaning.seen self.now.second) }
        ensures count { let x = A.meaning.seen self.now.first in
            let y = B.meaning.seen self.now.second in
            result ≡ shared_ways x y }
    {
        self.first.way_count().min(self.second.way_count())
    }

    // Is the way clean in both parts?
    fn both_clean(&self, way: u8) -> bool
        ensures { let x = A.meaning.seen self.now.first in
            let y = B.meaning.seen self.now.second in
            result ≡ (clean x way && clean y way) }
    {
        self.first.is_clean(way) && self.second.is_clean(way)
    }

    // The same run call on both parts.
    fn run_both(&mut self, task: u8, ways: WaySet, address: u32)
        ensures first { Ran A.meaning self.old.first task ways address self.new.first }
        ensures second { Ran B.meaning self.old.second task ways address self.new.second }
    {
        self.first.run(task, ways, address);
        self.second.run(task, ways, address);
    }

    // One scrub call on the part whose turn it is, or on none.
    fn step(&mut self, way: u8)
        ensures first { Sound (A.meaning.seen self.old.first) }
        ensures second { Sound (B.meaning.seen self.old.second) }
        ensures steps { Steps A.meaning B.meaning self.old way self.new }
    {
        if way >= self.shared() {
            return;
        }
        if !self.first.is_clean(way) {
            let _ = self.first.scrub(way);
        } else if !self.second.is_clean(way) {
            let _ = self.second.scrub(way);
        }
    }
}

impl<A: Resource, B: Resource> Resource for Pair<A, B> {
    ghost meaning = { pair_meaning A.meaning B.meaning };

    fn way_count(&self) -> u8 {
        self.shared()
    }

    fn cost_of(&self, way: u8) -> u16 {
        if way < self.shared() {
            self.first
                .cost_of(way)
                .saturating_add(self.second.cost_of(way))
        } else {
            0
        }
    }

    fn is_clean(&self, way: u8) -> bool {
        if way < self.shared() {
            self.both_clean(way)
        } else {
            true
        }
    }

    fn run(&mut self, task: u8, ways: WaySet, address: u32) {
        let both = ways.below(self.shared());
        self.run_both(task, both, address);
    }

    fn scrub(&mut self, way: u8) -> Progress {
        self.step(way);
        if self.is_clean(way) {
            Progress::Done
        } else {
            Progress::UnderWay
        }
    }
}
