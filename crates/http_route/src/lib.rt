//! What the requests of a log database ask for over HTTP: their paths, methods and arguments, and how those are
//! refused.
#![tactic(auto)]

mod arguments;
mod fault_page;
mod path;
mod refusal;
mod wanted;

pub use fault_page::fault_reply;
pub use refusal::{Argument, Refusal};
pub use wanted::{WantFault, Wanted, delivery_to};
