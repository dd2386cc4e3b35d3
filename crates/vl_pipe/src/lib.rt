//! A query over an input: what the program does for `pipe`, and what it says where there is no answer.
#![tactic(auto)]

mod arrival;
mod flush;
mod interrupt;
mod load;
mod load_stop;
mod names;
mod pipe;
mod query;
mod refusal;
mod report;
mod stored_desk;
mod stored_load;
mod window;

pub use arrival::Arrival;
pub use pipe::{Pipe, run_pipe};
pub use query::{StoredQuery, run_query};
pub use stored_load::run_load;
