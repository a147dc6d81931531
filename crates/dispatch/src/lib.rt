//! The dispatcher: it starts a plan over a resource, takes and finishes batches of work, and says tick by tick what the core does.
#![tactic(auto)]

pub mod dispatcher;
