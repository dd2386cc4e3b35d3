//! Callers of the ticket lock, and tests of it with threads.
#![tactic(auto)]

mod callers;
mod log;
#[cfg(test)]
mod tests;
mod turns;

pub use callers::{both_insert, fault_of_one, fresh};
pub use log::{Log, PushFault};
pub use turns::{insert, settle_all, status};
