//! Pipes that set fields of each record: `extract`, `format`, `len` and `math` (LogsQL, "Pipes that make fields").
#![tactic(auto)]

mod extract;
mod fault;
mod format;
mod math;
mod put;
mod row_pipe;

pub use fault::MakeFault;
pub use row_pipe::make;
