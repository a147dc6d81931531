//! What is told of a day: a line for each call and each tick, and remarks that sum it up for people.
#![tactic(auto)]

pub mod answers;
pub mod book;
pub mod remarks;
