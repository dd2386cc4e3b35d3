//! One column of a block: the values that one field has in the rows, in the first of four kinds that fits, and the
//! body of the column as bytes.
#![tactic(auto)]

mod cells;
mod codes;
mod column;
mod dictionary;
mod kept;
mod kinds;
mod lent;
mod many;
mod members;
mod put;
mod row_texts;
mod take;

pub use column::{FoundColumn, ValueColumn, text_len};
pub use lent::ColumnValues;
pub use lent_row::Value;
pub use row_texts::RowTexts;
pub use take::take_kind;
