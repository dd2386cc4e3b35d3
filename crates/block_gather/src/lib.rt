//! Blocks of rows that are picked out of other blocks.
#![tactic(auto)]

mod column;
mod columns;
mod gather;
mod names;
mod pick;
mod texts;
mod values;

pub use gather::gathered;
pub use pick::Pick;
