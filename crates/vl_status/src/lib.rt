//! Exit statuses of commands, and messages on the error stream.
//!
//! All code is in `status`: the statuses with their numbers, `say` and `report_no_memory`. `specs/Status` has the
//! numbers and the text of the message.
#![tactic(auto)]

mod status;

pub use status::{Status, report_no_memory, say};
