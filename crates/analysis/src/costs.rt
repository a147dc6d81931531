//! What the ways of a resource cost.
ghost use Rattle.std.specs.Prelude.{◌≡◌, ℕ, ◌≤◌, slice_index};

use resource::resource::Resource;
use std::array;

/// What each of eight ways costs in scrub calls, as a resource answered; a way that is not there costs 0.
#[derive(Clone, Copy)]
pub struct WayCosts {
    scrubs: [u16; 8],
    ghost narrow: { (w : ℕ) → slice_index scrubs w ≤ 65535 },
}

impl WayCosts {
    ghost use Rattle.resource.specs.Answers.{told16};
    ghost use Rattle.resource.specs.Seen.{Sound};
    ghost use Rattle.analysis.specs.Costs.{cost_of};

    /// No way costs anything.
    pub fn none() -> WayCosts
        ensures { (w : ℕ) → cost_of result w ≡ 0 }
    {
        WayCosts { scrubs: [0; 8] }
    }

    // What the resource answers.
    pub(crate) fn of_resource<R: Resource>(resource: &R) -> WayCosts
        requires { Sound (R.meaning.seen resource.now) }
        ensures { (w : ℕ) → cost_of result w ≡ told16 ((R.meaning.seen resource.now).cost w) }
    {
        WayCosts {
            // from_fn tells a usize; below the array's length the remainder is the number itself
            scrubs: array::from_fn(|way| resource.cost_of((way % 8) as u8)),
        }
    }

    /// The cost of a way; 0 past the last.
    pub fn of(&self, way: u8) -> u16
        ensures { result ≡ cost_of self.now way }
    {
        self.scrubs.get(usize::from(way)).copied().unwrap_or(0)
    }
}
