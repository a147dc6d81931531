ghost use Rattle.analysis.specs.Faults.{analysis_told};

use refusal::{Message, Refusal};

/// Why a draft is not accepted, with the lowest task or way that it is about.
#[derive(Clone, Copy, PartialEq, Eq, Debug)]
pub enum AnalysisFault {
    /// The draft is empty.
    NoTask,
    /// This task uses a way that the resource does not have.
    NoWay(u8),
    /// This way is used, and costs over 1,000 scrub calls.
    DearWay(u8),
    /// A list has fewer places than there are tasks.
    ShortList,
    /// This task has no bound within its deadline.
    NoBound(u8),
}

impl Refusal for AnalysisFault {
    ghost told = { analysis_told };

    fn message(&self) -> Message {
        match self {
            AnalysisFault::NoTask => Message::new(10, 0, "no task"),
            AnalysisFault::NoWay(task) => Message::new(11, usize::from(*task), "no way"),
            AnalysisFault::DearWay(way) => Message::new(12, usize::from(*way), "dear way"),
            AnalysisFault::ShortList => Message::new(13, 0, "short list"),
            AnalysisFault::NoBound(task) => Message::new(14, usize::from(*task), "no bound"),
        }
    }
}
