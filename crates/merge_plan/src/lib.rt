//! Which parts a round of the keeper writes.
#![tactic(auto)]

mod group;
mod job;
mod pieces;
mod plan;
mod youngest;

pub use plan::{Plan, plan_merges};
