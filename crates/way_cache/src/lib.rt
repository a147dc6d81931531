//! The way cache: a board over lent memory of one mark a byte, which says what task used a line last.
#![tactic(auto)]

pub mod cache;
mod marks;
