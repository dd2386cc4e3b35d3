//! Filters of LogsQL, read from tokens; and names, sizes and durations, which pipes have too.
#![tactic(auto)]

mod args;
mod filter;
mod label;
mod leaf;
mod leaves;
mod make;
mod names;
mod number;
mod run;
mod time;

pub use filter::{group, or};
pub use names::{field_named, name};
pub use number::size_of;
pub use time::duration;
