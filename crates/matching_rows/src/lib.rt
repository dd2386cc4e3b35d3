//! Rows that match: of the rows of opened blocks, those for which a filter holds, in the order of the history.
#![tactic(auto)]

mod fault;
mod found;
mod matching;

pub use fault::MatchFault;
pub use matching::matching_rows;
