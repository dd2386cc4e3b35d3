//! The order of the values of fields: numbers by value, then texts of moments, then all other texts by bytes.
#![tactic(auto)]

mod order;

pub use order::{ValueKey, number, value_order, value_order_law};
