//! The marks of a way cache, and what one call does to them.
//! A mark from 0 to 15 is the line's owner, the task that ran there last; a larger one says that the line is empty.
//! Each 32 marks are a way of two blocks of 16 lines, up to eight ways; marks past them are never used.
ghost use Rattle.std.specs.Prelude.{◌≡◌, ◌+◌, ◌≤◌, length, replicate};
ghost use Rattle.resource.specs.Seen.{clean};
ghost use Rattle.way_cache.specs.Marks.{owner_in, ways_in, marks_seen, Wiped};
ghost use Rattle.way_cache.specs.Calls.{Scrubs, Writes};

use resource::answer::Progress;
use sets::number_set::WaySet;

// An empty line is a byte past 15 and no `None`, since the memory is the lender's, one mark a byte.

// Is one of the 16 marks from here on an owner?
fn has_owner(marks: &[u8], from: usize) -> bool
    requires { from + 16 ≤ length marks.now }
    ensures { result ≡ owner_in marks.now from 16 }
{
    marks[from..from + 16].iter().any(|mark| *mark < 16)
}

// Empties the 16 lines from here on.
fn wipe(marks: &mut [u8], from: usize)
    requires { from + 16 ≤ length marks.old }
    ensures { Wiped marks.old from 16 marks.new }
{
    marks[from..from + 16].fill(255);
}

/// Empties every line, past the last way too.
pub fn wipe_all(marks: &mut [u8])
    ensures { marks.new ≡ replicate (length marks.old) 255 }
{
    marks.fill(255);
}

/// The number of ways that the marks make.
pub fn ways_in(marks: &[u8]) -> u8
    ensures { result ≡ ways_in marks.now }
{
    (marks.len() / 32).min(8) as u8
}

/// Has none of the way's lines an owner?
pub fn is_clean_in(marks: &[u8], way: u8) -> bool
    ensures { result ≡ clean (marks_seen marks.now) way }
{
    if way < ways_in(marks) {
        let from = 32 * way as usize;
        !has_owner(marks, from) && !has_owner(marks, from + 16)
    } else {
        true
    }
}

/// One run call.
pub fn run_in(marks: &mut [u8], task: u8, ways: WaySet, address: u32)
    ensures { Writes marks.old task ways address marks.new }
{
    if task < 16 {
        let line = (address % 32) as usize;
        let count = ways_in(marks);
        // By index: tried as a zip of the numbers with `chunks_exact_mut`, the proof does not close, since nothing is known of the marks after such a loop.
        for way in 0..count {
            if ways.contains(way) {
                marks[32 * way as usize + line] = task;
            }
        }
    }
}

/// One scrub call.
pub fn scrub_in(marks: &mut [u8], way: u8) -> Progress
    ensures { Scrubs marks.old way result marks.new }
{
    if way >= ways_in(marks) {
        return Progress::Done;
    }
    let from = 32 * way as usize;
    let first = has_owner(marks, from);
    let second = has_owner(marks, from + 16);
    if first {
        wipe(marks, from);
        if second {
            return Progress::UnderWay;
        }
        return Progress::Done;
    }
    if second {
        wipe(marks, from + 16);
    }
    Progress::Done
}
