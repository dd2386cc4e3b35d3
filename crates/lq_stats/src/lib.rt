//! Statistics of groups of records: `stats` (LogsQL, "stats pipe").
#![tactic(auto)]

mod array;
mod bucket;
mod fault;
mod finish;
mod function;
mod function_scan;
mod functions;
mod gathered;
mod groups;
mod key;
mod keyed;
mod keys;
mod measure;
mod order;
mod partial;
mod plan;
mod read;
mod scratch;
mod state;
mod words;

pub use fault::StatFault;
pub use gathered::Gathered;
pub use partial::Partial;
pub use plan::Plan;
