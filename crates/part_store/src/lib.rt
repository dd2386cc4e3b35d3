//! The parts of the first so many batches, on a vault: a file for each part, and a list of them.
#![tactic(auto)]

mod catalog;
mod fault;
mod files;
mod prepare;
mod reopen;
mod store;

pub use fault::{ReopenFault, StoreFault};
pub use store::{Store, Stored};
