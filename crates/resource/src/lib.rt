//! What every shared resource owes: the ways that it has, what a run and a scrub leave on them, and scrubbing a way until it is done.
//! A board or a layer is a crate of its own that implements `Resource`; what lies above knows nothing else of it.
#![tactic(auto)]

pub mod answer;
pub mod resource;
pub mod until;
