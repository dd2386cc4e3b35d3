//! Messages of syslog (RFC 5424) in a stream of frames (RFC 6587).
#![tactic(auto)]

mod data;
mod fault;
mod framer;
mod frames;
mod header;
mod message;
mod part;
mod reach;
mod scan;

pub use fault::{FrameFault, MessageFault};
pub use framer::Framer;
pub use frames::Frames;
pub use message::{SyslogRow, read_message};
