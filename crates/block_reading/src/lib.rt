//! Reading blocks: by columns where these are those of a block, and otherwise by rows.
#![tactic(auto)]

mod by_columns;
mod keys;
mod labels;
mod names;
mod read;
mod sizes;

pub use read::Items;
