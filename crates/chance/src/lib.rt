//! Numbers that look random and come from a seed, the same in every run: for test programs.
#![tactic(auto)]

pub mod choice;

ghost use Rattle.std.specs.Prelude.{◌≡◌, false, ◌%◌, ◌<◌, ◌≤◌, if◌then◌else◌, ◌==◌};
ghost use Rattle.chance.specs.Draws.{advanced, shown};

/// Where the drawing stands.
#[derive(Clone, Copy)]
pub struct Chance {
    pub state: u64,
}

impl Chance {
    /// The first draw comes from this seed.
    pub fn seeded(seed: u64) -> Chance
        ensures { result.state ≡ seed }
    {
        Chance { state: seed }
    }

    /// Any number of 31 bits.
    pub fn draw(&mut self) -> u32
        ensures later { self.new.state ≡ advanced self.old.state }
        ensures value { result ≡ shown (advanced self.old.state) }
        ensures bound { result < 2147483648 }
    {
        // A generator of its own and not the kit's, since the runs' numbers, and so what the programs print, hang on it.
        self.state = self
            .state
            .wrapping_mul(6_364_136_223_846_793_005)
            .wrapping_add(1_442_695_040_888_963_407);
        (self.state >> 33) as u32
    }

    /// A number below n; 0 where there is none.
    pub fn below(&mut self, n: u32) -> u32
        ensures later { self.new.state ≡ advanced self.old.state }
        ensures value { result ≡ (if n == 0 then 0 else shown (advanced self.old.state) % n) }
        ensures most { result ≤ n }
        ensures bound { result < 2147483648 }
    {
        let any = self.draw();
        if n == 0 { 0 } else { any % n }
    }

    /// Once in n times; never where n is 0.
    pub fn once_in(&mut self, n: u32) -> bool
        ensures later { self.new.state ≡ advanced self.old.state }
        ensures value { let drawn = shown (advanced self.old.state) in
            result ≡ (if n == 0 then false else drawn % n == 0) }
    {
        let at = self.below(n);
        n > 0 && at == 0
    }
}
