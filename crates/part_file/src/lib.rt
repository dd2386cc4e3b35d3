//! Parts: rows of any streams, each with its number, held in blocks, and parts as bytes.
#![tactic(auto)]

mod block_rows;
mod by_blocks;
mod fault;
mod filled;
mod followed;
mod held;
mod numbers;
mod part;
mod put;
mod read;
mod take;

pub use fault::PartFault;
pub use part::Part;
pub use read::are_part_rows;
