//! The rows of a block, asked at a moment.

use column_block::Open;

/// The rows of an opened block, and the moment at which they are asked, in nanoseconds since 1970.
#[derive(Clone, Copy)]
pub(crate) struct RowsAt<'o, 'b> {
    pub(crate) moment: i64,
    pub(crate) rows: &'o Open<'b>,
}
