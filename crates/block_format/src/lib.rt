//! Blocks as bytes: their items, the rows that these say, and the rules on the rows of a block. A block has the labels
//! of its stream, the keys of its rows, and its columns, each with its name, its kind, the filter of its words, and its
//! body.
#![tactic(auto)]

mod columns;
mod columns_said;
mod keys;
mod labels;
mod parts;
mod rules;
mod said;
mod values;

pub use columns::{NamedColumn, put_column};
pub use labels::put_labels;
pub use parts::{Parts, take_parts};
pub use rules::{MAX_CELLS, MAX_COLUMNS, MAX_ROWS, are_rising, is_block};
pub use said::{rows_said, stream_said};
pub use values::set_value;
