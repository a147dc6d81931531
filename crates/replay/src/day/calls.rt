//! The calls of a day, each told as it is answered.
ghost use Rattle.std.specs.Prelude.{◌≡◌, OnOk};
ghost use Rattle.textparts.specs.View.{span_of, to_come};
ghost use Rattle.daycalls.specs.View.{call_of};
ghost use Rattle.replay.specs.Asked.{also, announces, asked as asked_in, asked_by, finishes, one_tick, ticking};
ghost use Rattle.replay.specs.Told.{number_of};
ghost use Rattle.replay.specs.Going.{Goes, tasks_of};

use super::Day;
use daycalls::call::{Call, call_of};
use daylines::answers::{announced, finished, odd, ticked};
use resource::resource::Resource;
use std::alloc::AllocError;
use tabletext::line::find;
use textparts::part::Part;
use textparts::reader::Reader;

// No task's number. A name that no task has is announced all the same, since the dispatcher is what refuses it, as unlisted: so a number
// and no `Option`.
const NO_TASK: u8 = 255;

impl<'t, 'r, R: Resource> Day<'t, 'r, R> {
    // The number of the task of a name, or that of no task.
    fn number_of(&self, name: Part<'_>) -> u8
        ensures { let word = (span_of name.entry).bytes in
            result ≡ number_of self.now.text.now (tasks_of self.now) word }
    {
        find(self.draft, self.text, name).unwrap_or(NO_TASK)
    }

    // Announcing and finishing stay two: by one function, each of its three calls would need a test of which it is.
    fn announce(&mut self, name: Part<'_>) -> Result<(), AllocError>
        ensures { let more = also (announces (span_of name.entry).bytes) in
            OnOk result (Goes R.meaning.seen more self.old self.new) }
    {
        let task = self.number_of(name);
        let answer = self.dispatcher.announce(task);
        let allowance = self.plan.allowance(task).unwrap_or(0);
        self.book.count_announcement(task, answer, allowance);
        announced(self.out, name.bytes, answer)
    }

    fn finish(&mut self, name: Part<'_>) -> Result<(), AllocError>
        ensures { let more = also (finishes (span_of name.entry).bytes) in
            OnOk result (Goes R.meaning.seen more self.old self.new) }
    {
        let task = self.number_of(name);
        let answer = self.dispatcher.finish(task);
        self.book.count_finish(task, answer);
        finished(self.out, name.bytes, answer)
    }

    // One tick; its address is its number.
    fn tick(&mut self) -> Result<(), AllocError>
        ensures { OnOk result (Goes R.meaning.seen (also one_tick) self.old self.new) }
    {
        let at = self.book.ticks;
        let answer = self.dispatcher.tick(self.resource, at);
        self.book.count_tick(answer);
        ticked(self.out, self.draft, self.text, at, answer)
    }

    fn ticks(&mut self, count: u32) -> Result<(), AllocError>
        ensures { OnOk result (Goes R.meaning.seen (ticking count) self.old self.new) }
    {
        for turn in 0..count {
            self.tick()?;
        }
        Ok(())
    }

    // What one line asks for.
    fn call(&mut self, place: usize, call: Call<'_>) -> Result<(), AllocError>
        ensures { let more = asked_in place (call_of call.entry) in
            OnOk result (Goes R.meaning.seen more self.old self.new) }
    {
        match call {
            Call::Skipped => Ok(()),
            Call::Announce(name) => self.announce(name),
            Call::Finish(name) => self.finish(name),
            Call::Ticks(count) => self.ticks(count),
            Call::Odd => odd(self.out, place),
        }
    }

    /// All lines that are still to come.
    pub fn calls(&mut self, reader: &mut Reader<'_>) -> Result<(), AllocError>
        ensures { let more = asked_by (to_come reader.old) in
            OnOk result (Goes R.meaning.seen more self.old self.new) }
    {
        while let Some(line) = reader.next_line() {
            let place = line.part().place;
            let asked = call_of(line);
            self.call(place, asked)?;
        }
        Ok(())
    }
}
