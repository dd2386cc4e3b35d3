//! The columns of rows that are picked.

ghost use Rattle.std.specs.Prelude.{◌≡◌, ◌<◌, ◌≤◌, IfOk, length, map, filter};
ghost use Rattle.std.specs.List.{AllByRecursion};
ghost use Rattle.block_body.specs.Outlines.{filter_named, weight_of};
ghost use Rattle.block_model.specs.Columns.{names_of, values_of};
ghost use Rattle.block_model.specs.Keys.{IsNumbered};
ghost use Rattle.block_gather.specs.Gathered.{names_in};
ghost use Rattle.block_gather.specs.Picked.{rows_picked};

use crate::column::column_of;
use crate::pick::Pick;
use block_body::{ColumnHead, ColumnNames};
use block_column::ValueColumn;
use std::alloc::{AllocError, Global};

/// The heads of columns, their values, and how many bytes the fields of all rows have.
#[derive(Drop)]
pub(crate) struct Columns {
    pub(crate) heads: Vec<ColumnHead>,
    pub(crate) values: Vec<ValueColumn>,
    pub(crate) weight: u64,
}

/// The columns of the rows that are picked. The names are those of their blocks, which some columns of all rows may
/// lack.
pub(crate) fn columns_of(
    alloc: Global,
    picks: &[Pick<'_>],
    names: &ColumnNames,
    texts: &[&str],
    rows: usize,
) -> Result<Columns, AllocError>
    requires few { length (rows_picked picks.now) ≤ 4096 }
    requires each { AllByRecursion IsNumbered (rows_picked picks.now) }
    requires names { names.now ≡ names_in picks.now }
    requires texts { map (λ t. t.now) texts.now ≡ names_in picks.now }
    ensures heads { IfOk result (λ columns. columns.heads.items
        ≡ map (filter_named (rows_picked picks.now)) (names_of (rows_picked picks.now))) }
    ensures values { IfOk result (λ columns. columns.values.items
        ≡ map (values_of (rows_picked picks.now)) (names_of (rows_picked picks.now))) }
    ensures weight { IfOk result (λ columns. columns.weight ≡ weight_of (rows_picked picks.now)) }
{
    let mut heads = Vec::with_capacity(alloc, texts.len())?;
    let mut values = Vec::with_capacity(alloc, texts.len())?;
    let mut weight = 0;
    for c in 0..texts.len() {
        if let Some(column) = column_of(alloc, picks, texts[c], rows)? {
            heads.push(ColumnHead::new(names.shared(c)?, column.bloom))?;
            values.push(column.values)?;
            weight += column.weight;
        }
    }
    Ok(Columns {
        heads,
        values,
        weight,
    })
}
