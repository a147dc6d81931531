//! The search for a bound: the least number that a demand does not pass.
ghost use Rattle.std.specs.Prelude.{◌≡◌, ℕ, ◌≤◌, MatchOption};
ghost use Rattle.analysis.specs.Least.{IsLeastUpTo, NoneUpTo};

/// What may have to be done by a time: a sum that never falls as its number grows.
pub trait Demand {
    ghost sum: { Self → ℕ → ℕ };

    /// The sum at x.
    fn at(&self, x: u32) -> u64
        ensures { result ≡ sum self.now x };

    ghost rises: { (s : Self) (x y : ℕ) → x ≤ y → sum s x ≤ sum s y };
}

/// The least number from `low` to `limit` that the demand does not pass.
/// No number between x and the sum at x can be one, since the sum never falls: so the search goes on from there.
pub fn least<D: Demand>(demand: &D, low: u32, limit: u32) -> Option<u32>
    ensures { let sum = D.sum demand.now in
        MatchOption result (NoneUpTo sum low limit) (IsLeastUpTo sum low limit) }
{
    let mut x = low;
    let found = loop {
        if x > limit {
            return None;
        }
        let need = demand.at(x);
        if need <= u64::from(x) {
            break x;
        }
        if need > u64::from(limit) {
            return None;
        }
        x = need as u32;
    };
    Some(found)
}
