//! The list of a store's parts, in two slots of a vault.
//!
//! A list is written into the slot that does not have the live one, so that a crash at any moment leaves the list from
//! before or the new one.
#![tactic(auto)]

mod format;
mod gate;
mod list;
mod read;
mod rules;
mod write;

pub use list::{Entry, List, ListFault};
pub use read::read_list;
pub use write::{spell_list, write_list, write_spelled};
