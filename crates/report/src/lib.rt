//! The report on a floor: its text read and analysed, and each task's bound and slack, or why there is none, as bytes in a lent buffer.
#![tactic(auto)]

pub mod fault;
mod judge;
mod named;
mod page;
pub mod report;
