//! Formats HTTP/1.1 responses (RFC 9112) and writes them to a sink.
//!
//! - `status`: the status with its media type and methods, and how the response is delivered.
//! - `head`: the head; `whole`: head and content, the fixed response when memory runs out, and writing both parts.
//! - `specs/Reply` defines the bytes of a response.
#![tactic(auto)]

mod head;
mod status;
mod whole;

pub use head::{head_around_length, reply_head};
pub use status::{Delivery, Kind, Methods, Status};
pub use whole::{no_memory, put_parts, reply};
