//! Splitting a part by the days of its rows.
#![tactic(auto)]

mod picking;
mod sorting;
mod splitting;

pub use splitting::{DayPart, split_days};
