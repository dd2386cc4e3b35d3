//! What the program asks of the outside: a source that gives bytes, a sink that takes them, a clock,
//! and doors that give visits. Each is a trait, so that the code above is proved over any of them.
//!
//! The forms in memory tell all that they give and take; tests and worked examples use them. The
//! forms over standard streams, TCP and the system's clock tell nothing of content, and are trusted.
#![tactic(auto)]

mod adapters;
mod lines;
mod memory;
mod outside;
mod sure;
mod tcp;
mod timed;
mod transfer;

pub use adapters::{InputSource, OutputSink, SystemClock};
pub use lines::GroupReader;
pub use memory::{MemClock, MemDoors, MemSink, MemSource};
pub use outside::{Clock, Doors, Failed, Sink, Source, Visit, VisitKind};
pub use sure::{SureSink, SureSource};
pub use tcp::{Listening, TcpDoors, TcpVisit};
pub use transfer::{ReadFault, put_all};
