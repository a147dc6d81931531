//! What a task's response has to wait for.
ghost use Rattle.analysis.specs.Demands.{load_sum};
ghost use Rattle.analysis.specs.Rises.{rival-rises};
ghost use Rattle.std.proofs.Common.{arith};

use crate::least::Demand;
use crate::rivals::Rivals;
use taskset::task::Kind;

/// `base`, and all jobs of higher priority that count: against a split task those announced before its response ends,
/// against a whole one those announced until its first tick.
#[derive(Clone, Copy)]
pub struct Load {
    pub kind: Kind,
    pub base: u32,
    pub rivals: Rivals,
}

impl Demand for Load {
    ghost sum = { load_sum };

    ghost rises = { λ s x y h. omega (arith, rival-rises s.rivals s.kind x y h) };

    fn at(&self, x: u32) -> u64 {
        u64::from(self.base) + self.rivals.sum(self.kind, x)
    }
}
