//! A table text, read into a draft or refused with its first fault.
#![tactic(auto)]

pub mod fault;
pub mod form;
pub mod line;
pub mod text;
pub mod words;
