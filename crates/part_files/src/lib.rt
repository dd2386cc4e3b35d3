//! One part of a store in one file of a vault: written, removed and read.
#![tactic(auto)]

mod day;
mod fault;
mod read;
mod write;

pub use fault::FileFault;
pub use read::read_part;
pub use write::{remove_part, write_part};
