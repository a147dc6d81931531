//! Scrubbing one way of any resource, or every way, until it is done.
ghost use Rattle.resource.specs.Until.{EveryWayDone, ScrubbedDone};

use crate::resource::Resource;

/// Answers how many scrub calls it took: at most as many as the way costs. It leaves the way without traces, and every other way as it was.
pub fn scrub_until_done<R: Resource>(r: &mut R, way: u8) -> u32
    ensures { ScrubbedDone R.meaning r.old way result r.new }
{
    let mut calls = 1u32;
    while !r.scrub(way).is_done() {
        calls = calls.saturating_add(1);
    }
    calls
}

/// Scrubs every way until done, one after the other from way 0 on. It leaves no trace anywhere.
pub fn scrub_every_way<R: Resource>(r: &mut R)
    ensures { EveryWayDone R.meaning r.old r.new }
{
    for way in 0..r.way_count() {
        let _ = scrub_until_done(r, way);
    }
}
