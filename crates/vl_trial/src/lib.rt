//! The `trial` command: rows made from a seed, inserted in batches, and three queries over them.
//!
//! `row` makes one row, `batches` cuts the rows into batches, `kept` has a store in memory keep them, `laws` says that
//! the three queries can be asked and always have records, and `trial` inserts the batches and prints the answers.
#![tactic(auto)]

mod batches;
mod kept;
mod laws;
mod row;
mod trial;

pub use batches::TrialBatches;
pub use laws::{stats_law, trial_law, trial_queries_law};
pub use trial::trial_lines;
