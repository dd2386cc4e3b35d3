//! The rows of a part: their order, and where one block of them ends and the next begins.
#![tactic(auto)]

mod fill;
mod names;
mod order;

pub use fill::block_end;
pub use order::{is_earlier, labels_cmp, sorted};
