//! Scans of opened blocks: for each row of a block, whether a filter holds.
#![tactic(auto)]

mod ends;
mod keeping;
mod leaves;
mod marks;
mod mask;
mod rows_at;
mod scanner;
mod values;

pub use mask::Mask;
pub use scanner::{Scanner, scan};
