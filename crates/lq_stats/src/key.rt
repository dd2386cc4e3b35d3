//! The fields by whose values records are grouped.
use vl_row::Text;

/// A field by whose values records are grouped; by moments in buckets of `step` nanoseconds where that is set.
#[derive(Drop)]
pub(crate) struct Key {
    pub(crate) name: Text,
    pub(crate) step: Option<i64>,
}
