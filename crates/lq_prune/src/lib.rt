//! What a query needs of a block. What is known of a block without its values may tell that none of its rows holds, and
//! then the block is not opened.
#![tactic(auto)]

mod admitting;
mod binding;
mod law;
mod need;
mod selection;
mod tree;
mod words;

pub use law::pruning_law;
pub use need::{Need, needs};
