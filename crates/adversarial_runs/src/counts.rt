//! What happened in all runs, and how often a promise was broken.
use std::fmt;

/// A count that stops at the largest number.
#[derive(Clone, Copy, Default)]
pub struct Counter {
    pub count: u64,
}

impl Counter {
    /// So many more.
    pub fn add(&mut self, more: u64) {
        self.count = self.count.saturating_add(more);
    }

    /// One more if it is so.
    pub fn add_if(&mut self, so: bool) {
        if so {
            self.add(1);
        }
    }
}

impl fmt::Display for Counter {
    fn fmt<W: fmt::Write>(&self, f: &mut fmt::Formatter<W>) -> fmt::Result {
        let count = self.count;
        write!(f, "{count}")
    }
}

/// What happened in all runs.
#[derive(Clone, Copy, Default)]
pub struct Counts {
    pub tried: Counter,
    pub floors: Counter,
    pub ticks: Counter,
    pub rests: Counter,
    pub taken: Counter,
    pub too_early: Counter,
    pub unlisted: Counter,
    pub ended: Counter,
    pub finished: Counter,
    pub not_running: Counter,
    pub unended: Counter,
    pub at_bound: Counter,
    pub scrubs: Counter,
    pub allowances: Counter,
}

/// How often each promise was broken.
#[derive(Clone, Copy, Default)]
pub struct Violations {
    /// an announcement refused that did not come too early, or taken though it did
    pub refusals: Counter,
    /// a batch neither finished nor run in full at its deadline
    pub late: Counter,
    /// a run without a batch, beyond the budget or after a finish
    pub beyond: Counter,
    /// a run on a trace of a task that must not leak to it
    pub leaks: Counter,
    /// more scrub ticks than the allowances of all batches taken so far
    pub unpaid: Counter,
    /// a way with a trace after its scrub was done, or after the start
    pub unclean: Counter,
    /// any other answer than the calls before it ask for
    pub answers: Counter,
}

impl fmt::Display for Counts {
    fn fmt<W: fmt::Write>(&self, f: &mut fmt::Formatter<W>) -> fmt::Result {
        let Counts {
            tried,
            floors,
            ticks,
            rests,
            taken,
            too_early,
            unlisted,
            ended,
            finished,
            not_running,
            unended,
            at_bound,
            scrubs,
            allowances,
        } = *self;
        writeln!(f, "floors tried: {tried}")?;
        writeln!(f, "floors accepted and run: {floors}")?;
        writeln!(f, "ticks: {ticks}, of them rests: {rests}")?;
        writeln!(f, "batches taken: {taken}")?;
        writeln!(f, "batches ended: {ended}")?;
        writeln!(f, "batches finished by call: {finished}")?;
        writeln!(f, "batches not over when their run stopped: {unended}")?;
        writeln!(f, "batches over exactly at their bound: {at_bound}")?;
        writeln!(f, "announcements refused as too early: {too_early}")?;
        writeln!(f, "finishes refused as not running: {not_running}")?;
        writeln!(f, "calls refused as unlisted: {unlisted}")?;
        write!(f, "scrub ticks: {scrubs}, allowances: {allowances}")
    }
}

impl fmt::Display for Violations {
    fn fmt<W: fmt::Write>(&self, f: &mut fmt::Formatter<W>) -> fmt::Result {
        let Violations {
            refusals,
            late,
            beyond,
            leaks,
            unpaid,
            unclean,
            answers,
        } = *self;
        writeln!(
            f,
            "refused otherwise than exactly when too early: {refusals}"
        )?;
        writeln!(f, "late: {late}")?;
        writeln!(f, "run beyond the budget or after a finish: {beyond}")?;
        writeln!(f, "run on a trace that must not leak: {leaks}")?;
        writeln!(f, "scrub ticks beyond the allowances: {unpaid}")?;
        writeln!(f, "ways unclean after a scrub that was done: {unclean}")?;
        write!(f, "other answers than the calls ask for: {answers}")
    }
}
