//! The tasks of higher priority, as one of lower priority sees them.
ghost use Rattle.std.specs.Prelude.{◌≡◌, ℕ, ◌^◌, ◌<◌, ◌≤◌};
ghost use Rattle.analysis.specs.RivalIn.{rival_in};

use taskset::task::Kind;

/// A task of higher priority: its period, and what each of its jobs may take.
#[derive(Clone, Copy)]
pub struct Rival {
    pub period: u32,
    pub take: u32,
}

/// All tasks of higher priority than one; the places from `count` on are unused. The rule that nothing here asks for memory keeps
/// the array and its count, and a list of fixed room from the library could not be copied, as a load is.
/// A job takes at most 60,000 + 2 × 8 × 65,535 ticks, whatever the costs of the ways, so that 64 bits hold what
/// sixteen such tasks take in any number of ticks that has 32 bits.
#[derive(Clone, Copy)]
pub struct Rivals {
    pub count: u8,
    pub all: [Rival; 16],
    ghost few: { count ≤ 16 },
    ghost periods: { (j : ℕ) → j < count → 1 ≤ (rival_in all j).period },
    ghost takes: { (j : ℕ) → j < count → (rival_in all j).take ≤ 1108560 },
}

impl Rival {
    ghost use Rattle.analysis.specs.Rivals.{jobs_in};

    // How many of its jobs count against a task of this kind, by the number that its bound is sought with.
    fn jobs(&self, kind: Kind, x: u32) -> u64
        requires { 1 ≤ self.now.period }
        ensures value { result ≡ jobs_in kind x self.now.period }
        ensures few { result ≤ 2 ^ 33 }
    {
        let ticks = u64::from(x);
        let period = u64::from(self.period);
        match kind {
            Kind::Split => (ticks + period - 1) / period,
            Kind::Whole => ticks / period + 1,
        }
    }
}

impl Rivals {
    ghost use Rattle.analysis.specs.Rivals.{rival_sum};

    /// What all their jobs take.
    pub fn sum(&self, kind: Kind, x: u32) -> u64
        ensures value { result ≡ rival_sum self.now kind x }
        ensures few { result ≤ 2 ^ 58 }
    {
        // A loop, since each partial sum has to be shown to fit.
        let mut sum = 0;
        for rival in &self.all[..usize::from(self.count)] {
            sum += rival.jobs(kind, x) * u64::from(rival.take);
        }
        sum
    }
}
