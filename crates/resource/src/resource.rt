//! A resource with ways that hold traces of tasks.
ghost use Rattle.std.specs.Prelude.{◌≡◌};
ghost use Rattle.resource.specs.Answers.{told16};
ghost use Rattle.resource.specs.Seen.{Sound, clean};
ghost use Rattle.resource.specs.Meaning.{Meaning, Ran, Scrubbed};

use crate::answer::Progress;
use sets::number_set::WaySet;

// Sentences stand in the calls' clauses, not as laws: a law's proof cites specs/ alone, and the layers' lemmas would bury the definitions there.
/// Ways are numbered from 0. No call is refused: a way that is not there costs nothing, is clean and done, and a task past 15 leaves nothing.
pub trait Resource {
    // What is seen of a value, and what one run or scrub call on it may leave and answer.
    ghost meaning: { Meaning Self };

    /// The number of ways. Asking also tells that the value is one that a resource may have.
    fn way_count(&self) -> u8
        ensures sound { Sound (meaning.seen self.now) }
        ensures count { result ≡ (meaning.seen self.now).ways };

    /// The most scrub calls in a row that the way ever needs, or 65,535 if that is more.
    fn cost_of(&self, way: u8) -> u16
        ensures { result ≡ told16 ((meaning.seen self.now).cost way) };

    /// Does the way hold no trace?
    fn is_clean(&self, way: u8) -> bool
        ensures { result ≡ clean (meaning.seen self.now) way };

    // Three parameters: a struct of them would be made at each call only to be taken apart at once.
    /// The task runs on each of these ways, at the address.
    fn run(&mut self, task: u8, ways: WaySet, address: u32)
        ensures { Ran meaning self.old task ways address self.new };

    /// One step of scrubbing the way.
    fn scrub(&mut self, way: u8) -> Progress
        ensures { Scrubbed meaning self.old way result self.new };
}
