//! Lines of JSON as fields: each line one object, of any values (RFC 8259).
#![tactic(auto)]

mod bare;
mod copy;
mod escape;
mod fault;
mod fields;
mod line;
mod noting;
pub mod run;
mod scan;
mod scan_fault;
mod set;
mod text;

pub use fault::JsonFault;
pub use fields::{Said, fields_of, said_fields_of};
pub use scan_fault::ScanFault;
