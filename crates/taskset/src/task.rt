ghost use Rattle.std.specs.Prelude.{◌≡◌};
ghost use Rattle.taskset.specs.Figures.{is_whole, lawful};
ghost use Rattle.taskset.specs.Table.{name_in};

use sets::number_set::WaySet;

/// A split task may be preempted; a whole one keeps the core from its first tick until its job ends.
#[derive(Clone, Copy, PartialEq, Eq, Debug)]
pub enum Kind {
    /// It may be preempted.
    Split,
    /// It is not preempted.
    Whole,
}

impl Kind {
    /// Is a task of this kind never preempted?
    pub fn is_whole(self) -> bool
        ensures { result ≡ is_whole self }
    {
        matches!(self, Kind::Whole)
    }
}

/// A task's figures: its period, budget and deadline in ticks, the ways that it uses, and its kind.
#[derive(Clone, Copy, PartialEq, Eq, Debug)]
pub struct Figures {
    pub period: u32,
    pub budget: u32,
    pub deadline: u32,
    pub ways: WaySet,
    pub kind: Kind,
}

impl Figures {
    /// Are the figures in their ranges?
    pub fn is_lawful(&self) -> bool
        ensures { result ≡ lawful self.now }
    {
        1 <= self.period
            && self.period <= 1_000_000
            && 1 <= self.budget
            && self.budget <= 60_000
            && 1 <= self.deadline
            && self.deadline <= self.period
            && !self.ways.is_empty()
    }
}

/// Where a task's name stands in the text that it was read from. The text itself stays with the caller.
#[derive(Clone, Copy, PartialEq, Eq, Debug)]
pub struct Name {
    pub place: usize,
    pub len: usize,
}

impl Name {
    /// The part of a text where the name stands, or the empty part at its end where that runs past it.
    pub fn within<'t>(self, text: &'t [u8]) -> &'t [u8]
        ensures { result.now ≡ name_in text.now self }
    {
        let all = text.len();
        if self.place <= all && self.len <= all - self.place {
            &text[self.place..self.place + self.len]
        } else {
            &text[all..]
        }
    }
}

/// A task: its figures, and where its name stands.
#[derive(Clone, Copy, PartialEq, Eq, Debug)]
pub struct Task {
    pub figures: Figures,
    pub name: Name,
}
