//! What is asked of a row, wherever its fields lie.
ghost use Rattle.std.specs.Prelude.{◌≡◌, ◌<◌, ℕ, List, pos, filter, length, IfOk};
ghost use Rattle.log_model.specs.Field.{Field, field_value};
ghost use Rattle.log_model.specs.Row.{Row as Event, IsRow};
ghost use Rattle.lent_row.specs.Cells.{cell_at, has_value, value_text};

use crate::value::Value;
use std::alloc::{AllocError, Global};
use vl_row::{FieldList, Stream};

/// A row that is lent: a `Row`, or one of the rows that lie in columns.
///
/// Its fields lie in cells: those that are filled are in byte order of their names. A cell may be empty. Then the row
/// has no field of that name.
pub trait LentRow {
    // The row that it stands for.
    ghost event: { Self → Event };

    // The names of its cells, each with the value, which may be empty.
    ghost cells: { Self → List Field };

    /// Returns when it was, in nanoseconds since 1970.
    fn time(&self) -> i64
        ensures { result ≡ pos (event self.now).moment };

    /// Returns the stream that the row belongs to.
    fn stream(&self) -> &Stream
        ensures { result.now ≡ (event self.now).labels };

    /// Returns the value of the field of this name, empty where there is none.
    fn value(&self, name: &str) -> Value<'_>
        ensures { value_text result ≡ field_value (event self.now).fields name.now };

    /// Returns how many cells there are.
    fn cell_count(&self) -> usize
        ensures { result ≡ length (cells self.now) };

    /// Returns the name of the cell at this place, counted from 0.
    fn name_at(&self, place: usize) -> &str
        requires { place < length (cells self.now) }
        ensures { result.now ≡ (cell_at (cells self.now) place).0 };

    /// Returns the value in the cell at this place, counted from 0. It may be empty.
    fn value_at(&self, place: usize) -> Value<'_>
        requires { place < length (cells self.now) }
        ensures { value_text result ≡ (cell_at (cells self.now) place).1 };

    /// Returns the fields of the row, in memory of their own, with room for this many more.
    fn copy_fields(&self, alloc: Global, more: usize) -> Result<FieldList, AllocError>
        ensures { IfOk result (λ fields. fields ≡ (event self.now).fields) };

    /// Does nothing: its contract is the law of rows that are lent.
    fn rules(&self)
        ensures row { IsRow (event self.now) }
        ensures fields { filter has_value (cells self.now) ≡ (event self.now).fields };
}
