//! A floor as the charges see it.
ghost use Rattle.analysis.specs.PricedFloor.{priced_floor};
ghost use Rattle.analysis.specs.Rows.{Rows};

use crate::priced::PricedDraft;
use crate::row::Row;

pub mod charges;
pub mod limits;

/// A row for each of sixteen numbers, of which the draft's tasks have the first.
#[derive(Clone, Copy)]
pub struct Sheet {
    floor: PricedDraft,
    rows: [Row; 16],
    ghost told: { Rows floor rows },
}

impl Sheet {
    ghost use Rattle.std.specs.Prelude.{◌≡◌, ◌<◌, ◌≤◌};
    ghost use Rattle.analysis.specs.Rows.{row_of};
    ghost use Rattle.analysis.specs.Sheets.{sheet_floor};

    /// The sheet of a floor.
    pub fn of(floor: &PricedDraft) -> Sheet
        ensures { sheet_floor result ≡ priced_floor floor.now }
    {
        // By index and no `from_fn`, which would work out a row for each of sixteen numbers: those past the last task's are all alike.
        let mut rows = [Row::blank(); 16];
        for task in 0..floor.count() {
            rows[task as usize] = floor.row(task);
        }
        Sheet {
            floor: *floor,
            rows,
        }
    }

    /// How many tasks there are.
    pub fn count(&self) -> u8
        ensures value { result ≡ (sheet_floor self.now).tasks }
        ensures few { result ≤ 16 }
    {
        self.floor.count()
    }

    /// The row of a number.
    pub fn row(&self, task: u8) -> Row
        ensures { result ≡ row_of self.now.floor task }
    {
        if task < 16 {
            self.rows[task as usize]
        } else {
            Row::blank()
        }
    }
}
