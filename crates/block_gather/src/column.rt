//! A column of rows that are picked.

ghost use Rattle.std.specs.Prelude.{◌≡◌, ◌<◌, ◌≤◌, ◌^◌, ◌+◌, IfNone, IfOk, IfSome, false, length, map, sum_by};
ghost use Rattle.std.specs.List.{AllByRecursion, list_any};
ghost use Rattle.block_model.specs.Columns.{values_of};
ghost use Rattle.block_model.specs.Keys.{IsNumbered};
ghost use Rattle.block_gather.specs.Gathered.{IsColumn, cell_weight, column_weight, has_text, is_used};
ghost use Rattle.block_gather.specs.Picked.{rows_picked};

use crate::pick::Pick;
use crate::texts::{decimals_of, texts_of};
use crate::values::values_in;
use block_body::filter_of_column;
use block_column::ValueColumn;
use std::alloc::{AllocError, Global};
use token_bloom::Bloom;

/// The values of a column, the filter of their words, and how many bytes the fields have.
#[derive(Drop)]
pub(crate) struct Column {
    pub(crate) values: ValueColumn,
    pub(crate) bloom: Bloom,
    pub(crate) weight: u64,
}

/// The column of this name, if some row has a field of this name.
pub(crate) fn column_of(
    alloc: Global,
    picks: &[Pick<'_>],
    name: &str,
    rows: usize,
) -> Result<Option<Column>, AllocError>
    requires few { length (rows_picked picks.now) ≤ 4096 }
    requires each { AllByRecursion IsNumbered (rows_picked picks.now) }
    ensures some { IfOk result (λ found. IfSome found (λ column.
        IsColumn (length name.now) (values_of (rows_picked picks.now) name.now) column)) }
    ensures none { IfOk result (λ found. IfNone found (is_used (rows_picked picks.now) name.now ≡ false)) }
{
    let values = values_in(alloc, picks, name, rows)?;
    let decimals = decimals_of(alloc, values.as_slice())?;
    let texts = texts_of(alloc, values.as_slice(), decimals.as_slice())?;
    let found = column_of_texts(alloc, name.len(), texts.as_slice())?;
    Ok(found)
}

/// The column of these values under a name of this length, if one is not empty.
fn column_of_texts(alloc: Global, name: usize, texts: &[&str]) -> Result<Option<Column>, AllocError>
    requires fields { column_weight name (map (λ t. t.now) texts.now) < 2 ^ 32 }
    requires values { sum_by length (map (λ t. t.now) texts.now) < 2 ^ 32 }
    ensures some { IfOk result (λ found. IfSome found (IsColumn name (map (λ t. t.now) texts.now))) }
    ensures none { IfOk result (λ found. IfNone found (list_any has_text (map (λ t. t.now) texts.now) ≡ false)) }
{
    let weight = weight_of(name, texts);
    if weight < 1 {
        return Ok(None);
    }
    let values = ValueColumn::try_of(alloc, texts)?;
    let bloom = filter_of_column(alloc, &values, texts)?;
    Ok(Some(Column {
        values,
        bloom,
        weight: weight as u64,
    }))
}

/// The bytes of the fields that have these values, under a name of this length.
fn weight_of(name: usize, texts: &[&str]) -> usize
    requires { column_weight name (map (λ t. t.now) texts.now) < 2 ^ 32 }
    ensures { result ≡ column_weight name (map (λ t. t.now) texts.now) }
{
    let mut weight = 0;
    for text in texts {
        weight += cell_weight(name, text);
    }
    weight
}

/// The bytes of a field, whose name has this length. A field without a value is none.
fn cell_weight(name: usize, text: &str) -> usize
    requires { cell_weight name text.now < 2 ^ 32 }
    ensures { result ≡ cell_weight name text.now }
{
    if text.len() < 1 {
        return 0;
    }
    name + text.len()
}
