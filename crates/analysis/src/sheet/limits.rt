//! The bound of one task.
ghost use Rattle.std.specs.Prelude.{◌<◌, true, false, MatchOption};
ghost use Rattle.analysis.specs.Bounds.{InTime};
ghost use Rattle.analysis.specs.Least.{Unbounded, BoundMet, BoundMissed};
ghost use Rattle.analysis.specs.Sheets.{sheet_floor};

use super::Sheet;
use crate::demand::Load;
use crate::least::least;
use taskset::task::Kind;

// One function for both kinds would be no plainer: only a whole task's bound counts its own job apart, from the least start on.
impl Sheet {
    // The bound of a task as a split one, where it is within the task's deadline.
    fn split_bound(&self, task: u8) -> Option<u32>
        requires { task < (sheet_floor self.now).tasks }
        ensures { let f = sheet_floor self.now in
            MatchOption result (BoundMissed f task false) (BoundMet f task false) }
    {
        let row = self.row(task);
        let load = Load {
            kind: Kind::Split,
            base: self.blocking(task) + row.figures.budget + row.scrub,
            rivals: self.rivals(task),
        };
        least(&load, 1, row.figures.deadline)
    }

    // The bound of a task as a whole one, where it is within the task's deadline. The job itself must fit into that, whenever it starts.
    fn whole_bound(&self, task: u8) -> Option<u32>
        requires { task < (sheet_floor self.now).tasks }
        ensures { let f = sheet_floor self.now in
            MatchOption result (BoundMissed f task true) (BoundMet f task true) }
    {
        let row = self.row(task);
        let job = row.scrub + row.figures.budget;
        if job > row.figures.deadline {
            return None;
        }
        let load = Load {
            kind: Kind::Whole,
            base: self.blocking(task),
            rivals: self.rivals(task),
        };
        let start = least(&load, 0, row.figures.deadline - job)?;
        Some(start + job)
    }

    /// The bound of a task, where it is within the task's deadline.
    pub fn bound(&self, task: u8) -> Option<u32>
        requires { task < (sheet_floor self.now).tasks }
        ensures { let f = sheet_floor self.now in
            MatchOption result (Unbounded f task) (InTime f task) }
    {
        match self.row(task).figures.kind {
            Kind::Split => self.split_bound(task),
            Kind::Whole => self.whole_bound(task),
        }
    }
}
