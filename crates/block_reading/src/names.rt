//! Whether names are those of a block's columns.

ghost use Rattle.std.specs.Prelude.{◌≡◌, IsTrue, false, nat_le, length, true};
ghost use Rattle.std.specs.List.Sorted.{IsStrictlySortedBy};
ghost use Rattle.std.specs.declared.cmp.Ordering.TheVariants.{Less};
ghost use Rattle.log_model.specs.Field.{bytes_cmp, is_empty, is_reserved};
ghost use Rattle.block_reading.specs.ByColumns.{AreGoodNames, IsGoodName, column_names};

use block_format::NamedColumn;
use std::cmp::Ordering;

/// The most bytes of a name.
const MAX_NAME: usize = 128;

/// Whether the names are in byte order, each once, and each can be a field's.
pub(crate) fn are_block_names(columns: &[NamedColumn]) -> bool
    ensures rising { IsTrue result → IsStrictlySortedBy bytes_cmp (column_names columns.now) }
    ensures good { IsTrue result → AreGoodNames columns.now }
{
    if !are_rising(columns) {
        return false;
    }
    are_good(columns)
}

fn are_good(columns: &[NamedColumn]) -> bool
    ensures { IsTrue result → AreGoodNames columns.now }
{
    for column in columns {
        if !is_good(column) {
            return false;
        }
    }
    true
}

fn is_good(column: &NamedColumn) -> bool
    ensures { IsTrue result → IsGoodName column.now.0 }
{
    is_good_name(column.name.as_str())
}

fn is_good_name(name: &str) -> bool
    ensures { IsTrue result → IsGoodName name.now }
{
    if name.is_empty() || name.len() > MAX_NAME || is_reserved(name) {
        return false;
    }
    true
}

fn is_reserved(name: &str) -> bool
    ensures { result ≡ is_reserved name.now }
{
    name == "_time" || name == "_stream" || name == "_stream_id"
}

/// Whether each name is above the one before.
fn are_rising(columns: &[NamedColumn]) -> bool
    ensures { IsTrue result → IsStrictlySortedBy bytes_cmp (column_names columns.now) }
{
    for i in 1..columns.len() {
        if !is_below(&columns[i - 1], &columns[i]) {
            return false;
        }
    }
    true
}

fn is_below(column: &NamedColumn, other: &NamedColumn) -> bool
    ensures { IsTrue result → bytes_cmp column.now.0 other.now.0 ≡ Less }
{
    match column.name.as_str().cmp(other.name.as_str()) {
        Ordering::Less => true,
        _ => false,
    }
}
