//! The bounds of all tasks.
ghost use Rattle.std.specs.Prelude.{MatchResult, slice_index};
ghost use Rattle.analysis.specs.Bounds.{Accepted};
ghost use Rattle.analysis.specs.Sheets.{sheet_floor};
ghost use Rattle.analysis.specs.Verdict.{Unsettled};

use crate::fault::AnalysisFault;
use crate::sheet::Sheet;

/// Each task's bound in its place; or the lowest task that has none within its deadline.
pub fn settle(sheet: &Sheet) -> Result<[u32; 16], AnalysisFault>
    ensures { let f = sheet_floor sheet.now in
        MatchResult result (λ bounds. Accepted f (λ i. slice_index bounds i)) (Unsettled f) }
{
    let mut bounds = [0; 16];
    // A chain is no plainer, since the first refusal ends it; and zipped with the places, the proof would speak of places still lent.
    for task in 0..sheet.count() {
        bounds[task as usize] = sheet.bound(task).ok_or(AnalysisFault::NoBound(task))?;
    }
    Ok(bounds)
}
