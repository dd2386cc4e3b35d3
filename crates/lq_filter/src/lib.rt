//! Filters of rows and of records (LogsQL, "Filters"): prepared once, and then asked of many.
#![tactic(auto)]

mod asking;
mod choices;
mod computed;
mod fault;
mod forms;
mod inner;
mod labels;
mod pattern;
mod pipes;
mod prepared;
mod room;
mod subject;
mod tree;
mod value;

pub use asking::Asking;
pub use computed::Computed;
pub use fault::PrepareFault;
pub use inner::{Inner, RecordScan, prepare_inner, prepare_inner_numbered};
pub use labels::Selector;
pub use prepared::{Prepared, Scan, prepare};
pub use tree::Tree;
pub use value::FieldTest;
