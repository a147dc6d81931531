use resource::answer::Progress;

/// What the core is to do in a tick, and what came of it.
#[derive(Clone, Copy, PartialEq, Eq, Debug)]
pub enum TickAnswer {
    /// No task has a job.
    Rest,
    /// One scrub call was made on the way, for the task.
    Scrub {
        task: u8,
        way: u8,
        progress: Progress,
    },
    /// The task ran for one tick of its budget; its job ended with it, or not.
    // a flag, and no Option beside it: the task is told either way
    Run {
        task: u8,
        ended: bool,
    },
}
