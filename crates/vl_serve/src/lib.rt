//! Serves doors side by side, and writes their batches to a store meanwhile.
#![tactic(auto)]

mod door;
mod keep;
mod pace;
mod serving;
mod visit;
mod worker;

pub use pace::{is_due, longest_wait};
pub use serving::{ServeEnd, serve};
