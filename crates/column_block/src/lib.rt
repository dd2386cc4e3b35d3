//! Blocks: rows of one stream, held by columns, and blocks as bytes.
#![tactic(auto)]

mod block;
mod cells;
mod fault;
mod open;
mod open_row;
mod steps;

pub use block::Block;
pub use block_body::{ColumnNames, Head};
pub use block_column::ColumnValues;
pub use block_format::is_block;
pub use block_gather::Pick;
pub use fault::BlockFault;
pub use lent_row::Value;
pub use open::Open;
pub use open_row::OpenRow;
pub use steps::Steps;
