//! What is asked of a floor before its bounds are looked for.
ghost use Rattle.std.specs.Prelude.{◌≡◌, ◌&&◌, nat_le, MatchOption, MatchResult};
ghost use Rattle.sets.specs.Below.{some_below, IsLowest, NoneBelow};
ghost use Rattle.analysis.specs.PricedFloor.{priced_floor};
ghost use Rattle.analysis.specs.Verdict.{strays, dear, Ready, Refused};

use crate::fault::AnalysisFault;
use crate::priced::PricedDraft;

// Does the task use a way from `ways` on?
fn is_stray(floor: &PricedDraft, task: u8, ways: u8) -> bool
    ensures { result ≡ strays (priced_floor floor.now) ways task }
{
    (0..8).any(|way| ways <= way && floor.uses(task, way))
}

// The lowest task that uses a way from `ways` on.
fn first_stray(floor: &PricedDraft, ways: u8) -> Option<u8>
    ensures { let f = priced_floor floor.now in
        MatchOption result (NoneBelow f.tasks (strays f ways)) (IsLowest f.tasks (strays f ways)) }
{
    (0..floor.count()).find(|task| is_stray(floor, *task, ways))
}

// Does some task use the way?
fn is_used(floor: &PricedDraft, way: u8) -> bool
    ensures { let f = priced_floor floor.now in result ≡ some_below f.tasks (λ i. f.uses i way) }
{
    (0..floor.count()).any(|task| floor.uses(task, way))
}

// Does the way cost over 1,000 calls, and does some task use it?
fn is_dear(floor: &PricedDraft, way: u8) -> bool
    ensures { result ≡ dear (priced_floor floor.now) way }
{
    floor.cost(way) > 1_000 && is_used(floor, way)
}

// The lowest way that some task uses and that costs over 1,000 calls.
fn first_dear(floor: &PricedDraft) -> Option<u8>
    ensures { let f = priced_floor floor.now in
        MatchOption result (NoneBelow f.ways (dear f)) (IsLowest f.ways (dear f)) }
{
    (0..8).find(|way| is_dear(floor, *way))
}

/// Everything but the bounds, in the order in which the refusals come.
pub fn check(floor: &PricedDraft, ways: u8, room: usize) -> Result<(), AnalysisFault>
    ensures { let f = priced_floor floor.now in
        MatchResult result (λ _. Ready f ways room) (Refused f ways room) }
{
    if floor.count() == 0 {
        return Err(AnalysisFault::NoTask);
    }
    if let Some(task) = first_stray(floor, ways) {
        return Err(AnalysisFault::NoWay(task));
    }
    if let Some(way) = first_dear(floor) {
        return Err(AnalysisFault::DearWay(way));
    }
    if room < usize::from(floor.count()) {
        return Err(AnalysisFault::ShortList);
    }
    Ok(())
}
