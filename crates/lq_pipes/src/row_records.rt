//! Rows of which some have become records.
ghost use Rattle.std.specs.Prelude.{◌≤◌, length};

use crate::projector::Projector;

/// The records of rows, of only the fields that matter, of which some are still to be made.
#[derive(Drop)]
pub(crate) struct RowRecords<'r, R> {
    pub(crate) projector: Projector<'r>,
    pub(crate) rows: &'r [R],
    // how many of the rows have become records
    pub(crate) made: usize,
    ghost within: { made ≤ length rows.now },
}
