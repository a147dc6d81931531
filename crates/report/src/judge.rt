//! The verdict on a draft, on an empty way cache of eight ways.
ghost use Rattle.std.specs.Prelude.{IfOk};
ghost use Rattle.analysis.specs.Verdict.{Verdict};
ghost use Rattle.report.specs.Report.{answer_of, box_floor, Settled};

use analysis::analyse::analyse;
use analysis::fault::AnalysisFault;
use analysis::plan::Plan;
use taskset::draft::Draft;
use way_cache::cache::WayCache;

/// The bound and the slack of each task, at the place of its number, and zeros at the later ones.
// Two lists, since the analysis fills two.
#[derive(Clone, Copy)]
pub struct Margins {
    pub bounds: [u32; 16],
    pub slacks: [u32; 16],
}

/// The bound and the slack of each task, where the draft is accepted.
pub fn judge(draft: &Draft) -> Result<Margins, AnalysisFault>
    ensures verdict { Verdict (box_floor draft.now) 8 16 (answer_of result) }
    ensures settled { IfOk result (λ m. Settled draft.now m.bounds m.slacks) }
{
    let mut memory = [255u8; 256];
    let cache = WayCache::empty_over(&mut memory);
    let mut plan = Plan::empty();
    let (mut bounds, mut slacks) = ([0; 16], [0; 16]);
    analyse(draft, &cache, &mut bounds, &mut slacks, &mut plan)?;
    Ok(Margins { bounds, slacks })
}
