ghost use Rattle.report.specs.Faults.{report_told};

use refusal::{Message, Refusal};

/// Why no report is made.
#[derive(Clone, Copy, PartialEq, Eq, Debug)]
pub enum ReportFault {
    /// The buffer has fewer bytes than the longest report.
    ShortBuffer,
}

impl Refusal for ReportFault {
    ghost told = { report_told };

    fn message(&self) -> Message {
        Message::new(13, 0, "short list")
    }
}
