//! Merging parts into one.
#![tactic(auto)]

mod earlier;
mod merging;
mod queues;

pub use merging::merge;
