//! What a block holds: what is known of it without its values, and its keys and columns, which copies share.
#![tactic(auto)]

mod body;
mod columns;
mod head;
mod held_columns;
mod names;
mod stored;
mod write;

pub use columns::{filter_of_column, filter_of_held};
pub use head::{ColumnHead, Extent, Head};
pub use names::{ColumnNames, Name};
pub use stored::StoredRows;
