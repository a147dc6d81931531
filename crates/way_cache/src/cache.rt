//! The way cache as a resource.
ghost use Rattle.std.specs.Prelude.{◌≡◌, length, replicate};
ghost use Rattle.way_cache.specs.Cache.{cache_meaning, memory_of};

use crate::marks::{is_clean_in, run_in, scrub_in, ways_in, wipe_all};
use resource::answer::Progress;
use resource::resource::Resource;
use sets::number_set::WaySet;

/// A way cache over the memory that it was lent.
#[derive(Drop)]
pub struct WayCache<'a> {
    marks: &'a mut [u8],
}

impl<'a> WayCache<'a> {
    /// A cache over memory as it stands.
    pub fn over(memory: &'a mut [u8]) -> WayCache<'a>
        ensures same { (memory_of result).ghost_name ≡ memory.entry.ghost_name }
        ensures marks { (memory_of result).now ≡ memory.old }
    {
        WayCache { marks: memory }
    }

    /// An empty cache over memory, all of which is written over.
    pub fn empty_over(memory: &'a mut [u8]) -> WayCache<'a>
        ensures same { (memory_of result).ghost_name ≡ memory.entry.ghost_name }
        ensures marks { (memory_of result).now ≡ replicate (length memory.old) 255 }
    {
        wipe_all(memory);
        WayCache::over(memory)
    }

    /// Gives the memory back.
    pub fn into_memory(self) -> &'a mut [u8]
        ensures same { result.ghost_name ≡ (memory_of self.entry).ghost_name }
        ensures marks { result.now ≡ (memory_of self.entry).now }
    {
        let WayCache { marks } = self;
        marks
    }
}

impl<'a> Resource for WayCache<'a> {
    ghost meaning = { cache_meaning };

    fn way_count(&self) -> u8 {
        ways_in(self.marks)
    }

    fn cost_of(&self, way: u8) -> u16 {
        if way < self.way_count() { 2 } else { 0 }
    }

    fn is_clean(&self, way: u8) -> bool {
        is_clean_in(self.marks, way)
    }

    fn run(&mut self, task: u8, ways: WaySet, address: u32) {
        run_in(self.marks, task, ways, address);
    }

    fn scrub(&mut self, way: u8) -> Progress {
        scrub_in(self.marks, way)
    }
}
