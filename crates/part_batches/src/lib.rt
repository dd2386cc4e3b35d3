//! Whether parts hold whole batches.
#![tactic(auto)]

mod numbers;
mod whole;

pub use whole::are_batches;
