//! Opening the store of a vault for a command.
//!
//! `open_store` reopens a store, and says on the error stream why it could not. `specs/Opening` says what the store
//! then holds, and which texts and statuses come.
#![tactic(auto)]

mod open;
mod report;

pub use open::open_store;
