//! A board for tests: eight ways of any costs, whose scrubs always take as many calls as they may.
#![tactic(auto)]

pub mod board;
pub mod slot;
