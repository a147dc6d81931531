//! What the calls of a dispatcher answer and do to its state, over any floor, and the law that every run of them keeps.
#![tactic(auto)]

pub mod answer;
pub mod fault;

ghost use Rattle.runs.specs.Run.{LawStands};

/// The law of every run, as a claim of this crate. Nothing is computed.
pub fn run_law_stands()
    ensures law { LawStands }
{}
