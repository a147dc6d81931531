//! What a floor's tasks are: their kinds and figures, and the draft, a table of up to sixteen of them
//! with the pairs that must not leak.
#![tactic(auto)]

pub mod draft;
pub mod fault;
pub mod task;
