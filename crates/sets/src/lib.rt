//! Sets of small numbers, as sets of ways and sets of tasks: the bits of one number say who is in them.
//! Contracts speak of members alone, so no crate above this one sees a bit.
#![tactic(auto)]

pub mod number_set;
