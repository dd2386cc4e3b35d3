//! Rows that are lent: what a filter, a projector or a printer asks of a row, wherever its fields lie.
#![tactic(auto)]

mod lent;
mod of_reference;
mod of_row;
mod value;

pub use lent::LentRow;
pub use value::Value;
