//! The columns of the fields by which records are ordered.
ghost use Rattle.std.specs.Prelude.{◌≡◌, IfOk, map};
ghost use Rattle.lq_ast.specs.PipeView.{sort_by};
ghost use Rattle.lq_order.specs.Column.{column_cmp, columns_cmp, placed_cmp};
ghost use Rattle.lq_order.specs.Mirror.{Mirrors};
ghost use Rattle.lq_ast.specs.Sorting.{field_cmp, record_cmp};

use crate::values::Values;
use lq_ast::SortKey;
use lq_tuple::HashSeed;
use std::alloc::{AllocError, Global};
use std::cmp::Ordering;
use vl_row::FieldList;

/// A field's values in records, and whether the greatest comes first.
#[derive(Drop)]
pub(crate) struct Column<'a> {
    pub(crate) values: Values<'a>,
    pub(crate) desc: bool,
}

impl<'a> Column<'a> {
    /// Returns the column of a key in these records: by ranks where there is a seed for their table, and else by keys.
    fn of(
        alloc: Global,
        key: &SortKey,
        records: &'a [FieldList],
        ranked: Option<HashSeed>,
    ) -> Result<Column<'a>, AllocError>
        ensures { IfOk result (λ column.
            Mirrors (column_cmp column) (field_cmp (sort_by key.now)) records.entry.now) }
    {
        let name = key.name.as_str();
        let values = Values::of(alloc, name, records, ranked)?;
        let desc = key.desc;
        Ok(Column { values, desc })
    }

    /// How the records at two places stand to each other.
    pub(crate) fn compare(&self, a: usize, b: usize) -> Ordering
        ensures { result ≡ column_cmp self.now a b }
    {
        let order = self.values.compare(a, b);
        if self.desc { order.reverse() } else { order }
    }
}

/// Returns the columns of these keys in these records: by ranks where there is a seed for their table, and else by
/// keys.
pub(crate) fn columns<'a>(
    alloc: Global,
    keys: &[SortKey],
    records: &'a [FieldList],
    ranked: Option<HashSeed>,
) -> Result<Vec<Column<'a>>, AllocError>
    ensures { IfOk result (λ columns.
        Mirrors (columns_cmp columns.items) (record_cmp (map sort_by keys.now)) records.entry.now) }
{
    let mut columns = Vec::with_capacity(alloc, keys.len())?;
    for key in keys {
        columns.push(Column::of(alloc, key, records, ranked)?)?;
    }
    Ok(columns)
}

/// How the records at two places stand to each other: by the first column in which they differ.
pub(crate) fn compare(columns: &[Column<'_>], a: usize, b: usize) -> Ordering
    ensures { result ≡ columns_cmp columns.now a b }
{
    let mut left = columns;
    while let [column, later @ ..] = left {
        match column.compare(a, b) {
            Ordering::Equal => left = later,
            order => return order,
        }
    }
    Ordering::Equal
}

/// Returns the same, and where they differ in no column, the one that came first stands first.
pub(crate) fn compare_placed(columns: &[Column<'_>], a: usize, b: usize) -> Ordering
    ensures { result ≡ placed_cmp columns.now a b }
{
    compare(columns, a, b).then(a.cmp(&b))
}
