//! The values of one name in the rows that are picked.

ghost use Rattle.std.specs.Prelude.{◌≡◌, ◌<◌, ◌++◌, [], IfNone, IfOk, IfSome, IsTrue, OnOk, Some, false};
ghost use Rattle.std.specs.Prelude.{length, map, slice_get};
ghost use Rattle.std.specs.Prelude.{replicate, slice_index_or};
ghost use Rattle.lent_row.specs.Cells.{value_text};
ghost use Rattle.vl_row.specs.Names.{is_among};
ghost use Rattle.block_model.specs.Columns.{names_of, values_of};
ghost use Rattle.block_gather.specs.Picked.{rows_of, rows_picked};

use crate::pick::Pick;
use lent_row::Value;
use std::alloc::{AllocError, Global};

/// The value of this name in each row that is picked, of which there are about so many.
pub(crate) fn values_in<'a>(
    alloc: Global,
    picks: &[Pick<'a>],
    name: &str,
    rows: usize,
) -> Result<Vec<Value<'a>>, AllocError>
    ensures { IfOk result (λ values. map value_text values.items ≡ values_of (rows_picked picks.now) name.now) }
{
    let mut values = Vec::with_capacity(alloc, rows)?;
    let mut place = 0;
    for pick in picks {
        put_values(&mut values, pick, name, &mut place)?;
    }
    Ok(values)
}

/// Appends the value of this name in each row of a pick.
fn put_values<'a>(
    out: &mut Vec<Value<'a>>,
    pick: &Pick<'a>,
    name: &str,
    place: &mut usize,
) -> Result<(), AllocError>
    ensures { OnOk result (map value_text out.new.items
        ≡ map value_text out.old.items ++ values_of (rows_of pick.now) name.now) }
{
    match column_near(pick, name, place) {
        Some(c) => put_column(out, pick, c),
        None => put_none(out, pick, name),
    }
}

/// The column of this name. It is mostly at the place at which the last block had it.
fn column_near(pick: &Pick<'_>, name: &str, place: &mut usize) -> Option<usize>
    ensures some { IfSome result (λ c. slice_get (names_of pick.now.block) c ≡ Some name.now) }
    ensures none { IfNone result (is_among (names_of pick.now.block) name.now ≡ false) }
{
    if is_at(pick, *place, name) {
        return Some(*place);
    }
    let found = pick.column_named(name);
    if let Some(c) = found {
        *place = c;
    }
    found
}

/// Whether the column at this place has the name.
fn is_at(pick: &Pick<'_>, c: usize, name: &str) -> bool
    ensures { IsTrue result → slice_get (names_of pick.now.block) c ≡ Some name.now }
{
    if c >= pick.columns() {
        return false;
    }
    pick.name(c) == name
}

/// Appends the value of each row of a pick in a column.
fn put_column<'a>(out: &mut Vec<Value<'a>>, pick: &Pick<'a>, c: usize) -> Result<(), AllocError>
    requires { c < length (names_of pick.now.block) }
    ensures { OnOk result (map value_text out.new.items ≡ map value_text out.old.items
        ++ values_of (rows_of pick.now) (slice_index_or (names_of pick.now.block) c [])) }
{
    for i in pick.from()..pick.to() {
        out.push(pick.value(i, c))?;
    }
    Ok(())
}

/// Appends an empty value for each row of a pick. The block has no column of this name.
fn put_none(out: &mut Vec<Value<'_>>, pick: &Pick<'_>, _name: &str) -> Result<(), AllocError>
    requires { is_among (names_of pick.now.block) _name.now ≡ false }
    ensures { OnOk result (map value_text out.new.items
        ≡ map value_text out.old.items ++ values_of (rows_of pick.now) _name.now) }
{
    put_empty(out, pick.len())
}

/// Appends so many empty values.
fn put_empty(out: &mut Vec<Value<'_>>, count: usize) -> Result<(), AllocError>
    ensures { OnOk result (map value_text out.new.items ≡ map value_text out.old.items ++ replicate count []) }
{
    for _ in 0..count {
        out.push(Value::Str(""))?;
    }
    Ok(())
}
