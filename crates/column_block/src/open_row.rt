//! Rows of opened blocks, which are lent.

ghost use Rattle.std.specs.Prelude.{◌≡◌, ◌<◌, Some, length, slice_get};
ghost use Rattle.block_model.specs.Columns.{names_of};

use crate::cells::{fields_of, value_in, value_named};
use block_body::StoredRows;
use lent_row::{LentRow, Value};
use std::alloc::{AllocError, Global};
use std::marker::Model;
use vl_row::{FieldList, Stream};

/// A row of an opened block, lent from its columns.
///
/// A contract sees it as the row with its numbers, and the names of the columns.
#[derive(Drop)]
pub struct OpenRow<'a> {
    stored: &'a StoredRows,
    place: usize,
}

const _: () = prove!(std::mem::size_of::<OpenRow<'_>>() == 16);

impl<'a> Model for OpenRow<'a> {
    ghost use Rattle.std.specs.Prelude.{◌<◌, length};
    ghost use Rattle.column_block.specs.InColumns.{InColumns, row_at};

    ghost Value = { InColumns };

    ghost view = { λ r. row_at r.stored.now r.place };

    ghost invariant = { λ r. r.place < length r.stored.now };
}

impl<'a> OpenRow<'a> {
    pub(crate) fn new(stored: &'a StoredRows, place: usize) -> OpenRow<'a>
        requires { place < length stored.now }
        ensures row { slice_get stored.now place ≡ Some result.numbered }
        ensures columns { result.names ≡ names_of stored.now }
    {
        OpenRow { stored, place }
    }

    /// The same row, lent once more.
    pub fn copied(&self) -> OpenRow<'a>
        ensures { result ≡ self.now }
    {
        OpenRow {
            stored: self.stored,
            place: self.place,
        }
    }
}

impl<'a> LentRow for OpenRow<'a> {
    ghost use Rattle.column_block.specs.InColumns.{cells_in};

    ghost event = { λ row. row.numbered.row };

    ghost cells = { λ row. cells_in row };

    fn time(&self) -> i64 {
        let key = self.stored.key(self.place);
        key.time
    }

    fn stream(&self) -> &Stream {
        self.stored.rules();
        self.stored.head().stream()
    }

    fn value(&self, name: &str) -> Value<'_> {
        value_named(self.stored, self.place, name)
    }

    fn cell_count(&self) -> usize {
        self.stored.head().columns()
    }

    fn name_at(&self, place: usize) -> &str {
        self.stored.head().name(place)
    }

    fn value_at(&self, place: usize) -> Value<'_> {
        value_in(self.stored, self.place, place)
    }

    fn copy_fields(&self, alloc: Global, more: usize) -> Result<FieldList, AllocError> {
        let fields = fields_of(alloc, self.stored, self.place, more)?;
        Ok(fields)
    }

    fn rules(&self) {
        self.stored.rules();
    }
}
