//! Records of rows, what pipes make of them, and their lines (LogsQL, "Pipes").
#![tactic(auto)]

mod cells;
mod fault;
mod fields;
mod kept;
mod making;
mod members;
mod needed;
mod output;
mod passing;
mod pipes;
mod printed_stream;
mod project;
mod projector;
mod record;
mod row_record;
mod row_records;
mod rows;
mod step;

pub use fault::PipeFault;
pub use output::lines;
pub use pipes::apply;
pub use record::Printer;
pub use row_record::rec_of;
pub use rows::apply_rows;
