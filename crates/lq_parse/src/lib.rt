//! Queries of LogsQL, read from their texts.
#![tactic(auto)]

mod call;
mod expression;
mod names;
mod pipes;
mod query;
mod row_pipe;
mod sort;
mod stats;
mod uniq;

pub use lq_grammar::{QueryFault, query_law};
pub use query::parse;
