//! Row banks: a board of eight ways, each a bank that is closed, or open at one row for the task that opened it.
#![tactic(auto)]

pub mod bank;
pub mod banks;
