//! The analysis of a floor: what the scrubs of its ways cost its tasks, a bound on each task's response, and the plan of an accepted floor.
#![tactic(auto)]

pub mod analyse;
mod check;
pub mod costs;
mod demand;
pub mod fault;
pub mod least;
pub mod plan;
mod priced;
mod rivals;
mod row;
mod settle;
mod sheet;
