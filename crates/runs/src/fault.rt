ghost use Rattle.runs.specs.Faults.{call_told, start_told};

use refusal::{Message, Refusal};

/// Why a dispatcher refuses an announcement or a finish.
#[derive(Clone, Copy, PartialEq, Eq, Debug)]
pub enum CallFault {
    /// The number is no task's.
    Unlisted,
    /// Fewer ticks than its period have followed the task's last batch.
    TooEarly,
    /// It is not the task that the last tick ran and left unended.
    NotRunning,
}

/// Why a dispatcher refuses to start.
#[derive(Clone, Copy, PartialEq, Eq, Debug)]
pub enum StartFault {
    /// The plan is empty.
    NoTask,
    /// The resource answers another cost than the plan's for this way, and for none below it.
    OtherCosts(u8),
}

impl Refusal for CallFault {
    ghost told = { call_told };

    fn message(&self) -> Message {
        let (number, word) = match self {
            CallFault::Unlisted => (16, "unlisted"),
            CallFault::TooEarly => (17, "too early"),
            CallFault::NotRunning => (18, "not running"),
        };
        Message::new(number, 0, word)
    }
}

impl Refusal for StartFault {
    ghost told = { start_told };

    fn message(&self) -> Message {
        match self {
            StartFault::NoTask => Message::new(10, 0, "no task"),
            StartFault::OtherCosts(way) => Message::new(15, *way as usize, "other costs"),
        }
    }
}
