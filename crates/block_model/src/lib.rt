//! What the crates of blocks share: rows that are lent, their keys, the names that their fields have, the values of
//! each name, the rows that columns say, and texts that were met lately.
#![tactic(auto)]

mod columns;
mod keys;
mod lent;
mod recent;
mod rows;

pub use columns::{column_names, column_values, value_near};
pub use keys::{Key, row_keys};
pub use lent::{NumberedRef, lend, lent_row};
pub use recent::{Recent, SLOTS, slot_of};
pub use rows::numbered_row;
