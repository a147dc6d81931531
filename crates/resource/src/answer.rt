//! What a resource answers.
ghost use Rattle.std.specs.Prelude.{◌≡◌};
ghost use Rattle.resource.specs.Answers.{is_done};

/// The answer to one scrub call.
#[derive(Clone, Copy, PartialEq, Eq, Debug)]
pub enum Progress {
    /// The way holds no trace.
    Done,
    /// The way wants further scrub calls.
    UnderWay,
}

impl Progress {
    /// Is the way done?
    pub fn is_done(self) -> bool
        ensures { result ≡ is_done self }
    {
        matches!(self, Progress::Done)
    }
}
