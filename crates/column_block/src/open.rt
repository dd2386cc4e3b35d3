//! Opened blocks, which lend columns, values, keys and rows.

ghost use Rattle.std.specs.Prelude.{◌≡◌, ◌<◌, IfOk, IfSome, Some, [], length, map, slice_get, slice_index_or};
ghost use Rattle.std.specs.Fmt.{signed_decimal};
ghost use Rattle.std.specs.List.{All};
ghost use Rattle.lent_row.specs.Cells.{value_text};
ghost use Rattle.block_model.specs.Columns.{names_of, values_of};
ghost use Rattle.block_column.specs.Lent.{AreCodes, values_lent};
ghost use Rattle.block_format.specs.Rows.{key_in};
ghost use Rattle.block_body.specs.Outlines.{DoNotFall, time_of};

use crate::cells::{fields_of, value_in, values_named};
use crate::open_row::OpenRow;
use block_body::StoredRows;
use block_column::ColumnValues;
use block_model::numbered_row;
use col_codec::IntColumn;
use lent_row::Value;
use std::alloc::{AllocError, Global};
use std::marker::Model;
use vl_row::{Numbered, Stream};

/// A block that was opened.
///
/// A contract sees it as the rows of the block.
#[derive(Drop)]
pub struct Open<'a> {
    stored: &'a StoredRows,
}

impl<'a> Model for Open<'a> {
    ghost use Rattle.std.specs.Prelude.{List};
    ghost use Rattle.log_model.specs.History.{Numbered as NumberedRow};

    ghost Value = { List NumberedRow };

    ghost view = { λ o. o.stored.now };
}

impl<'a> Open<'a> {
    pub(crate) fn new(stored: &'a StoredRows) -> Open<'a>
        ensures { result ≡ stored.now }
    {
        Open { stored }
    }

    /// How many rows there are.
    pub fn len(&self) -> usize
        ensures { result ≡ length self.now }
    {
        self.stored.head().rows()
    }

    /// The stream of all rows.
    pub fn stream(&self) -> &'a Stream
        ensures { All (λ numbered. numbered.row.labels ≡ result.now) self.now }
    {
        let stored = self.stored;
        stored.rules();
        stored.head().stream()
    }

    /// The times of the rows, in nanoseconds since 1970, which do not fall.
    pub fn times(&self) -> &'a [i64]
        ensures times { result.now ≡ map time_of self.now }
        ensures order { DoNotFall result.now }
    {
        let stored = self.stored;
        stored.times()
    }

    /// The values that the rows have in the field of this name, lent as they are held. They are empty where no row has
    /// such a field.
    pub fn values(&self, name: &str) -> ColumnValues<'a>
        ensures values { values_lent result ≡ values_of self.now name.now }
        ensures codes { AreCodes result }
    {
        values_named(self.stored, name)
    }

    /// The integers of a column, if it is held as integers.
    pub fn ints(&self, c: usize) -> Option<&'a IntColumn>
        requires { c < length (names_of self.now) }
        ensures { IfSome result (λ ints. map signed_decimal ints.now
            ≡ values_of self.now (slice_index_or (names_of self.now) c [])) }
    {
        let stored = self.stored;
        match stored.values(c) {
            ColumnValues::Integers(ints) => Some(ints),
            _ => None,
        }
    }

    /// A row, lent from the columns.
    pub fn lent(&self, i: usize) -> OpenRow<'a>
        requires { i < length self.now }
        ensures row { slice_get self.now i ≡ Some result.numbered }
        ensures columns { result.names ≡ names_of self.now }
    {
        OpenRow::new(self.stored, i)
    }

    /// The value of a row in a column: its text, which is empty where the row has no such field, or the integer whose
    /// decimal text it is.
    pub fn value(&self, i: usize, c: usize) -> Value<'a>
        requires row { i < length self.now }
        requires column { c < length (names_of self.now) }
        ensures { slice_get (values_of self.now (slice_index_or (names_of self.now) c [])) i
            ≡ Some (value_text result) }
    {
        value_in(self.stored, i, c)
    }

    /// The time of a row, the number of its batch, and its place there.
    pub fn key(&self, i: usize) -> (i64, u64, u32)
        requires { i < length self.now }
        ensures { slice_get (map key_in self.now) i ≡ Some result }
    {
        let stored = self.stored;
        let key = stored.key(i);
        (key.time, key.batch, key.place)
    }

    /// A row, in memory of its own.
    pub fn row(&self, alloc: Global, i: usize) -> Result<Numbered, AllocError>
        requires { i < length self.now }
        ensures { IfOk result (λ numbered. slice_get self.now i ≡ Some numbered) }
    {
        let stored = self.stored;
        let fields = fields_of(alloc, stored, i, 0)?;
        stored.rules();
        let key = stored.key(i);
        let numbered = numbered_row(alloc, stored.head().stream(), key, fields)?;
        Ok(numbered)
    }
}
