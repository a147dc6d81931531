//! What the charges need of one task.
ghost use Rattle.std.specs.Prelude.{◌≡◌};
ghost use Rattle.analysis.specs.FloorOf.{no_figures};

use sets::number_set::WaySet;
use taskset::task::{Figures, Kind};

/// Its figures, the cost of all its guarded ways, and that of the dearest of them.
#[derive(Clone, Copy)]
pub struct Row {
    pub figures: Figures,
    pub scrub: u32,
    pub dearest: u32,
}

impl Row {
    /// The row of a number that is no task's.
    pub fn blank() -> Row
        ensures { result ≡ record { figures = no_figures; scrub = 0; dearest = 0 } }
    {
        Row {
            figures: Figures {
                period: 0,
                budget: 0,
                deadline: 0,
                ways: WaySet::empty(),
                kind: Kind::Split,
            },
            scrub: 0,
            dearest: 0,
        }
    }
}
