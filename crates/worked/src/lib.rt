//! Theorems about the definitions that the analysis's contracts cite: that a floor has one verdict, and what small floors, worked by hand, come to.
//! Each function does nothing but stand for its theorem.
#![tactic(auto)]

ghost use Rattle.worked.specs.OneVerdict.{OneVerdict};
ghost use Rattle.worked.specs.Worked.{WorkedFloors};

/// No floor has two verdicts.
pub fn verdict_is_one()
    ensures { OneVerdict }
{}

/// The floors worked by hand come out as they should.
pub fn floors_stand()
    ensures { WorkedFloors }
{}
