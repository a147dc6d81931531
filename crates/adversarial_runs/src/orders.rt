//! The orders in which a run's calls come.
use crate::watch::Watch;
use chance::Chance;
use dispatch::dispatcher::Dispatcher;
use resource::answer::Progress;
use resource::resource::Resource;
use runs::answer::TickAnswer;

/// A dispatcher that has been started, who watches it, and where the calls come from.
#[derive(Drop)]
pub struct Stage<'a> {
    pub dispatcher: Dispatcher,
    pub watch: Watch,
    pub chance: &'a mut Chance,
}

impl Stage<'_> {
    fn announce(&mut self, number: u8) {
        let answer = self.dispatcher.announce(number);
        self.watch.note_announced(number, answer);
    }

    fn finish(&mut self, number: u8) {
        let answer = self.dispatcher.finish(number);
        self.watch.note_finished(number, answer);
    }

    /// Announces every task as soon as it may be, and now and then one that comes too early.
    pub fn announce_all(&mut self) {
        for number in 0..self.watch.count() {
            if !self.watch.is_early(number) || self.chance.once_in(16) {
                self.announce(number);
            }
        }
    }

    // Announces each task, early or not, once in so many times.
    fn announce_some(&mut self, rate: u32) {
        for number in 0..self.watch.count() {
            if self.chance.once_in(rate) {
                self.announce(number);
            }
        }
    }

    /// Announces one task alone when all is quiet, and all others once it has begun.
    pub fn ambush(&mut self) {
        if self.watch.is_quiet() {
            let number = self.chance.below(u32::from(self.watch.count())) as u8;
            self.announce(number);
        } else if self.chance.once_in(2) {
            self.announce_all();
        }
    }

    // Finishes the task just run, or any other, or a number past the last.
    fn finish_some(&mut self) {
        let any = self
            .chance
            .below(u32::from(self.watch.count()) + 2)
            .min(255) as u8;
        let is_any = self.chance.once_in(2);
        let number = match self.watch.just_run() {
            Some(running) if !is_any => running,
            _ => any,
        };
        self.finish(number);
    }

    /// Announces and finishes anything at any time.
    pub fn call_any(&mut self) {
        self.announce_some(4);
        if self.chance.once_in(3) {
            self.finish_some();
        }
    }

    // Now and then a number past the last is announced, and any finished.
    fn call_amiss(&mut self) {
        if self.chance.once_in(20) {
            let past = self
                .watch
                .count()
                .saturating_add(self.chance.below(3) as u8);
            self.announce(past);
            self.finish_some();
        }
    }

    fn tick<R: Resource>(&mut self, resource: &mut R) {
        let address = self.chance.draw();
        let answer = self.dispatcher.tick(resource, address);
        self.watch.note_tick(&answer);
        let is_clean = is_done_clean(resource, &answer);
        self.watch.violations.unclean.add_if(!is_clean);
    }

    /// So many ticks over the resource, with these calls before each.
    pub fn run<R: Resource, F: Fn(&mut Stage<'_>)>(
        &mut self,
        resource: &mut R,
        ticks: u32,
        calls: F,
    )
        requires { F.IsAlwaysCallable calls }
    {
        for _ in 0..ticks {
            calls(self);
            self.call_amiss();
            self.tick(resource);
        }
    }
}

// Is the way that a tick has scrubbed to the end clean?
fn is_done_clean<R: Resource>(resource: &R, answer: &TickAnswer) -> bool {
    match *answer {
        TickAnswer::Scrub {
            task: _,
            way,
            progress: Progress::Done,
        } => resource.is_clean(way),
        _ => true,
    }
}
