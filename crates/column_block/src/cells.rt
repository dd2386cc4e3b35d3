//! The values and the fields of a row, in the columns that hold it.

ghost use Rattle.std.specs.Prelude.{◌≡◌, ◌<◌, IfOk, IfSome, Some, [], length, slice_get, slice_index_or};
ghost use Rattle.lent_row.specs.Cells.{value_text};
ghost use Rattle.log_model.specs.Field.{field_value};
ghost use Rattle.block_model.specs.Columns.{names_of, values_of};
ghost use Rattle.block_column.specs.Lent.{AreCodes, values_lent};

use block_body::StoredRows;
use block_column::ColumnValues;
use block_format::set_value;
use lent_row::Value;
use std::alloc::{AllocError, Global};
use vl_row::FieldList;

/// The value of a row in a column.
pub(crate) fn value_in(stored: &StoredRows, i: usize, c: usize) -> Value<'_>
    requires row { i < length stored.now }
    requires column { c < length (names_of stored.now) }
    ensures { slice_get (values_of stored.now (slice_index_or (names_of stored.now) c [])) i
        ≡ Some (value_text result) }
{
    stored.value(i, c)
}

/// The value of a row in the column of this name, and empty if there is none.
pub(crate) fn value_named<'a>(stored: &'a StoredRows, i: usize, name: &str) -> Value<'a>
    requires { i < length stored.now }
    ensures { IfSome (slice_get stored.now i) (λ numbered.
        value_text result ≡ field_value numbered.row.fields name.now) }
{
    let head = stored.head();
    match head.column_named(name) {
        Some(c) => value_in(stored, i, c),
        None => Value::Str(""),
    }
}

/// The values of all rows in the column of this name, and empty ones if there is none.
pub(crate) fn values_named<'a>(stored: &'a StoredRows, name: &str) -> ColumnValues<'a>
    ensures values { values_lent result ≡ values_of stored.now name.now }
    ensures codes { AreCodes result }
{
    let head = stored.head();
    match head.column_named(name) {
        Some(c) => stored.values(c),
        None => ColumnValues::Constant("", head.rows()),
    }
}

/// The fields of a row, in memory of their own, with room for this many more.
pub(crate) fn fields_of(
    alloc: Global,
    stored: &StoredRows,
    i: usize,
    more: usize,
) -> Result<FieldList, AllocError>
    requires { i < length stored.now }
    ensures { IfOk result (λ fields. IfSome (slice_get stored.now i) (λ numbered. fields ≡ numbered.row.fields)) }
{
    let head = stored.head();
    stored.rules();
    let room = count_of(stored, i).saturating_add(more);
    let mut fields = FieldList::with_room(alloc, room)?;
    for c in 0..head.columns() {
        set_value(alloc, &mut fields, head.name(c), value_in(stored, i, c))?;
    }
    Ok(fields)
}

/// How many fields a row has.
fn count_of(stored: &StoredRows, i: usize) -> usize
    requires { i < length stored.now }
{
    let head = stored.head();
    let mut count = 0;
    for c in 0..head.columns() {
        if !value_in(stored, i, c).is_empty() {
            count += 1;
        }
    }
    count
}
