//! What the scrubs may cost each task. Every charge fits 32 bits, whatever the ways cost: all scrubs of a task cost at most
//! 8 × 65,535 calls, and its budget is at most 60,000.
ghost use Rattle.std.specs.Prelude.{◌≡◌, ◌<◌, ◌≤◌};
ghost use Rattle.analysis.specs.Charges.{block, blocking, hold_cost, interference, resume_below, resumption};
ghost use Rattle.analysis.specs.Rivals.{RivalsOf};
ghost use Rattle.analysis.specs.Sheets.{sheet_floor};

use super::Sheet;
use crate::rivals::{Rival, Rivals};
use taskset::task::Kind;

impl Sheet {
    // What task k has to be scrubbed for again, where task j preempts it.
    fn resumption(&self, j: u8, k: u8) -> u32
        ensures { result ≡ resumption (sheet_floor self.now) j k }
    {
        let row = self.row(k);
        if j < k && !row.figures.kind.is_whole() {
            row.scrub
        } else {
            0
        }
    }

    // The most that a task between j and m has to be scrubbed for again.
    fn resume_below(&self, j: u8, m: u8) -> u32
        ensures { result ≡ resume_below (sheet_floor self.now) j m }
    {
        let costs = (0..m).map(|k| self.resumption(j, k));
        costs.max().unwrap_or(0)
    }

    // What one job of task j may take from task i.
    fn interference(&self, j: u8, i: u8) -> u32
        requires { i < (sheet_floor self.now).tasks }
        ensures { result ≡ interference (sheet_floor self.now) j i }
    {
        let row = self.row(j);
        row.figures.budget + row.scrub + self.resume_below(j, i + 1)
    }

    // How long task l, once it has had a tick, may still hold the core against everybody.
    fn hold(&self, l: u8) -> u32
        ensures { result ≡ hold_cost (sheet_floor self.now) l }
    {
        let row = self.row(l);
        match row.figures.kind {
            Kind::Split => row.dearest.saturating_sub(1),
            Kind::Whole => (row.scrub + row.figures.budget).saturating_sub(1),
        }
    }

    // How long task l may hold the core against task i.
    fn block(&self, i: u8, l: u8) -> u32
        ensures { result ≡ block (sheet_floor self.now) i l }
    {
        if i < l || (i == l && 0 < i) {
            self.hold(l)
        } else {
            0
        }
    }

    /// How long any task may hold the core against task i.
    pub fn blocking(&self, i: u8) -> u32
        ensures { result ≡ blocking (sheet_floor self.now) i }
    {
        let blocks = (0..self.count()).map(|l| self.block(i, l));
        blocks.max().unwrap_or(0)
    }

    /// The tasks of higher priority than task i.
    pub fn rivals(&self, i: u8) -> Rivals
        requires { i < (sheet_floor self.now).tasks }
        ensures { RivalsOf (sheet_floor self.now) i result }
    {
        let mut all = [Rival { period: 1, take: 0 }; 16];
        // from_fn would be no plainer: it makes all sixteen, where only the first i are asked for; nor would places that are lent one by one.
        for j in 0..i {
            all[j as usize] = Rival {
                period: self.row(j).figures.period,
                take: self.interference(j, i),
            };
        }
        Rivals { count: i, all }
    }
}
