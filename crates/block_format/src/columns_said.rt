//! The columns that count among those that were read.

ghost use Rattle.std.specs.Prelude.{◌≡◌, ℕ, [], IfOk, OnOk, filter, if◌then◌else◌, map, slice_index_or};
ghost use Rattle.std.specs.List.{All};
ghost use Rattle.block_format.specs.Columns.{AreSaid, HasRows, IsWhole, lent_column};
ghost use Rattle.block_format.specs.Reading.{has_name};
ghost use Rattle.block_model.specs.Columns.{fields_at};
ghost use Rattle.log_model.specs.Field.{set_field};

use crate::columns::NamedColumn;
use block_column::FoundColumn;
use std::alloc::{AllocError, Global};
use std::collections::BTreeMap;

/// The columns that count, in the order of their names: of each name the last. Those without values are left out, where
/// that is quickly seen.
pub(crate) fn columns_said(
    alloc: Global,
    columns: &[NamedColumn],
    rows: usize,
) -> Result<Vec<(&str, &FoundColumn)>, AllocError>
    requires { All (HasRows rows) columns.now }
    ensures fields { IfOk result (λ said. (i : ℕ)
        → fields_at (map lent_column said.items) i ≡ fields_at (filter has_name columns.now) i) }
    ensures whole { IfOk result (λ said. All (IsWhole rows) said.items) }
{
    let mut last = BTreeMap::new(alloc);
    for column in columns {
        put_last(&mut last, column, rows)?;
    }
    let said = listed(alloc, last)?;
    Ok(said)
}

fn listed<'a>(
    alloc: Global,
    last: BTreeMap<&'a str, &'a FoundColumn>,
) -> Result<Vec<(&'a str, &'a FoundColumn)>, AllocError>
    ensures { IfOk result (λ said. said.items ≡ last.entry.entries) }
{
    let mut said = Vec::with_capacity(alloc, last.len())?;
    for column in last {
        said.push(column)?;
    }
    Ok(said)
}

/// Puts a column that has a name in the place of the one of the same name.
fn put_last<'a>(
    last: &mut BTreeMap<&'a str, &'a FoundColumn>,
    column: &'a NamedColumn,
    _rows: usize,
) -> Result<(), AllocError>
    requires rows { HasRows _rows column.now }
    requires said { AreSaid _rows last.old.entries }
    ensures fields { OnOk result ((i : ℕ) → fields_at (map lent_column last.new.entries) i
        ≡ (if has_name column.now
        then set_field (fields_at (map lent_column last.old.entries) i) column.now.0 (slice_index_or column.now.1 i [])
        else fields_at (map lent_column last.old.entries) i)) }
    ensures said { OnOk result (AreSaid _rows last.new.entries) }
{
    let name = column.name.as_str();
    if name.is_empty() {
        return Ok(());
    }
    if column.values.is_filled_with("") {
        last.remove(name);
    } else {
        last.insert(name, &column.values)?;
    }
    Ok(())
}
