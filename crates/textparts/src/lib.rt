//! A text taken apart: its lines, and the words, numbers and remarks of each line, every one of them
//! a part of the text with its place.
#![tactic(auto)]

pub mod bytes;
pub mod part;
pub mod reader;
pub mod shapes;
