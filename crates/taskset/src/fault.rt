ghost use Rattle.taskset.specs.Faults.{draft_told};

use refusal::{Message, Refusal};

/// Why a draft refuses.
#[derive(Clone, Copy, PartialEq, Eq, Debug)]
pub enum DraftFault {
    /// There are sixteen tasks already.
    FullTable,
    /// A figure is out of its range.
    WildFigure,
    /// Both numbers of a pair are the same.
    Itself,
    /// The number is no task's.
    Unlisted,
}

impl Refusal for DraftFault {
    ghost told = { draft_told };

    fn message(&self) -> Message {
        let (number, word) = match self {
            DraftFault::FullTable => (7, "full table"),
            DraftFault::WildFigure => (8, "wild figure"),
            DraftFault::Itself => (9, "itself"),
            DraftFault::Unlisted => (16, "unlisted"),
        };
        Message::new(number, 0, word)
    }
}
