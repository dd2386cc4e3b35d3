//! Prepared queries, and their answers over a look at the shelf.
#![tactic(auto)]

mod asked;
mod evaluation;
mod fault;
mod matched;
mod opened;
mod query;
mod search;

pub use column_block::Steps;
pub use evaluation::{answer, run_query};
pub use fault::{RunFault, SearchFault};
pub use lq_parse::{QueryFault, query_law};
pub use lq_tuple::HashSeed;
pub use query::{QueryRefusal, read_query};
pub use search::Search;
