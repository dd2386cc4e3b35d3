//! A reference to a row that is lent.
use crate::lent::LentRow;
use crate::value::Value;
use std::alloc::{AllocError, Global};
use vl_row::{FieldList, Stream};

impl<'r, R: LentRow> LentRow for &'r R {
    ghost event = { λ row. R.event row.now };

    ghost cells = { λ row. R.cells row.now };

    fn time(&self) -> i64 {
        R::time(*self)
    }

    fn stream(&self) -> &Stream {
        R::stream(*self)
    }

    fn value(&self, name: &str) -> Value<'_> {
        R::value(*self, name)
    }

    fn cell_count(&self) -> usize {
        R::cell_count(*self)
    }

    fn name_at(&self, place: usize) -> &str {
        R::name_at(*self, place)
    }

    fn value_at(&self, place: usize) -> Value<'_> {
        R::value_at(*self, place)
    }

    fn copy_fields(&self, alloc: Global, more: usize) -> Result<FieldList, AllocError> {
        R::copy_fields(*self, alloc, more)
    }

    fn rules(&self) {
        R::rules(*self)
    }
}
