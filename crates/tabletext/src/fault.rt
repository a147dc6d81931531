ghost use Rattle.std.specs.Prelude.{◌≡◌};
ghost use Rattle.tabletext.specs.declared.fault.LineFault.TheVariants.{Draft as of_draft};
ghost use Rattle.tabletext.specs.declared.fault.TextFault.TheVariants.{Line as of_line};
ghost use Rattle.tabletext.specs.Faults.{line_told, text_told};

use refusal::{Message, Refusal};
use taskset::fault::DraftFault;

/// Why a line is refused. Where the fault is one byte's or one word's it holds the place of that in the text.
#[derive(Clone, Copy, PartialEq, Eq, Debug)]
pub enum LineFault {
    /// a byte that is not one of 32 to 126
    StrayByte(usize),
    /// a line that is none of the forms
    OddLine,
    /// a word that is not the name, the number, the ways or the kind that has to stand there
    OddWord(usize),
    /// a task's name that an earlier task has
    TwiceNamed(usize),
    /// a name of a pair that no task before it has
    Unnamed(usize),
    /// what the draft said, carried whole
    Draft(DraftFault),
}

/// A line's fault with the line's place in the text.
#[derive(Clone, Copy, PartialEq, Eq, Debug)]
pub struct FaultAt {
    pub place: usize,
    pub fault: LineFault,
}

/// Why a text is refused.
#[derive(Clone, Copy, PartialEq, Eq, Debug)]
pub enum TextFault {
    /// a text of more than 8,192 bytes
    LongText,
    /// the first line that is refused
    Line(FaultAt),
}

impl From<DraftFault> for LineFault {
    ghost from_gives = { λ f r. r ≡ of_draft f };

    fn from(said: DraftFault) -> LineFault {
        LineFault::Draft(said)
    }
}

impl From<FaultAt> for TextFault {
    ghost from_gives = { λ f r. r ≡ of_line f };

    fn from(line: FaultAt) -> TextFault {
        TextFault::Line(line)
    }
}

impl FaultAt {
    // What the line's fault tells; a draft's keeps its number and word, and is about the line.
    fn message(&self) -> Message
        ensures number { result.number ≡ (line_told self.now.place self.now.fault).number }
        ensures detail { result.detail ≡ (line_told self.now.place self.now.fault).detail }
        ensures word { result.word.now ≡ (line_told self.now.place self.now.fault).word }
    {
        match self.fault {
            LineFault::StrayByte(place) => Message::new(2, place, "stray byte"),
            LineFault::OddLine => Message::new(3, self.place, "odd line"),
            LineFault::OddWord(place) => Message::new(4, place, "odd word"),
            LineFault::TwiceNamed(place) => Message::new(5, place, "twice named"),
            LineFault::Unnamed(place) => Message::new(6, place, "unnamed"),
            LineFault::Draft(fault) => Message::new(fault.number(), self.place, fault.word()),
        }
    }
}

impl Refusal for TextFault {
    ghost told = { text_told };

    fn message(&self) -> Message {
        match self {
            TextFault::LongText => Message::new(1, 8192, "long text"),
            TextFault::Line(line) => line.message(),
        }
    }
}
