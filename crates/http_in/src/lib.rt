//! HTTP/1.1 requests of a connection (RFC 9112).
#![tactic(auto)]

mod body;
mod fault;
mod head;
mod line;
mod lines;
mod reader;
mod request;
mod search;
mod stage;
mod take;
mod trailer;
mod turn;
mod window;

pub use fault::RequestFault;
pub use reader::Reader;
pub use request::Request;
