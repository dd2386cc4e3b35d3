//! The core of the database: the state that all callers share. It holds the accepted batches, takes one more at its
//! end, and lends looks at them that stay as they were.
#![tactic(auto)]

mod entries;
mod fault;
mod offer;
mod shelf;
mod snapshot;
mod state;

pub use entries::EntryRows;
pub use fault::{CommitFault, SwapFault};
pub use shelf::{Shelf, stands_after_all};
pub use snapshot::Snapshot;
