//! The text of a day: the line that starts it, and then the calls, one a line.
#![tactic(auto)]

pub mod call;
pub mod go;
