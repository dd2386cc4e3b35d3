//! Lines of JSON, and messages of syslog, as rows: which fields they have, when they were, what their message is, and
//! to which stream they belong.
#![tactic(auto)]

mod body;
mod complete;
mod fault;
mod held;
mod kind;
mod law;
mod line;
mod lines;
mod merge;
mod options;
mod prepared;
mod read;
mod syslog;
mod taking;
mod weigh;

pub use body::{Intake, LineFault, batch_of_body};
pub use fault::OptionFault;
pub use kind::LineKind;
pub use law::intake_law;
pub use line::row_of_line;
pub use options::Options;
pub use read::argument;
pub use syslog::{SyslogKind, row_of_syslog};
pub use weigh::{Weighed, weigh_body};
