//! How often each verdict came.
use crate::piles::Shape;
use std::fmt;

/// What came of all comparisons.
#[derive(Clone, Copy, Default)]
pub struct Tally {
    floors: u32,
    tasks: u32,
    accepted: u32,
    /// accepted on each shape of resource
    by_shape: [u32; 6],
    /// accepted floors on which some task has no slack at all
    tight: u32,
    /// refusals 10 to 14
    refused: [u32; 5],
    /// refused while the plan held an accepted floor before
    emptied: u32,
    disagreements: u32,
}

impl Tally {
    /// One floor more, with so many tasks: did both analyses agree on it?
    pub fn count_floor(&mut self, tasks: usize, agreed: bool) {
        self.floors = self.floors.saturating_add(1);
        self.tasks = self.tasks.saturating_add(tasks.min(16) as u32);
        if !agreed {
            self.disagreements = self.disagreements.saturating_add(1);
        }
    }

    /// One floor more accepted, on a resource of this shape: has some task no slack?
    pub fn count_accepted(&mut self, shape: Shape, tight: bool) {
        let place = shape as usize;
        self.accepted = self.accepted.saturating_add(1);
        self.by_shape[place] = self.by_shape[place].saturating_add(1);
        if tight {
            self.tight = self.tight.saturating_add(1);
        }
    }

    /// One floor more refused, by this number: did the plan hold an accepted floor before?
    pub fn count_refused(&mut self, number: u8, plan_was_full: bool) {
        // By the number, and by no enum: the numbers are what is compared, and a match would name the five in a row once more.
        let place = usize::from(number.saturating_sub(10)).min(4);
        self.refused[place] = self.refused[place].saturating_add(1);
        if plan_was_full {
            self.emptied = self.emptied.saturating_add(1);
        }
    }
}

impl fmt::Display for Tally {
    fn fmt<W: fmt::Write>(&self, f: &mut fmt::Formatter<W>) -> fmt::Result {
        let Tally {
            floors,
            tasks,
            accepted,
            by_shape: [cache, banks, slow, both, reserved, pile],
            tight,
            refused: [no_task, no_way, dear_way, short_list, no_bound],
            emptied,
            disagreements,
        } = *self;
        writeln!(f, "floors: {floors}, with {tasks} tasks in all")?;
        writeln!(f, "accepted: {accepted}, of them {tight} with a slack of 0")?;
        writeln!(
            f,
            "accepted on a way cache: {cache}, on row banks: {banks}, on a slow board: {slow}"
        )?;
        writeln!(
            f,
            "accepted on a pair: {both}, on a reserve: {reserved}, on a pile of all: {pile}"
        )?;
        writeln!(f, "refused as no task (10): {no_task}")?;
        writeln!(f, "refused as no way (11): {no_way}")?;
        writeln!(f, "refused as dear way (12): {dear_way}")?;
        writeln!(f, "refused as short list (13): {short_list}")?;
        writeln!(f, "refused as no bound (14): {no_bound}")?;
        writeln!(f, "refusals that emptied a plan: {emptied}")?;
        write!(f, "disagreements: {disagreements}")
    }
}
