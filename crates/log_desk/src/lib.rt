//! The desk: the state that all callers share, behind a lock at which they take turns.
#![tactic(auto)]

mod desk;
mod fault;
mod keeper;
mod law;
mod opening;
mod pass;
mod prepared;

pub use desk::Desk;
pub use fault::{InsertFault, KeepFault};
pub use keeper::Keeper;
pub use law::one_caller_law;
pub use pass::Pass;
pub use prepared::PreparedBatch;
pub use turn_lock::SplitFault;
