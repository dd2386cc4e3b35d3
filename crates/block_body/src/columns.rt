//! The columns of a block.

ghost use Rattle.std.specs.Prelude.{◌≡◌, ◌<◌, ◌≤◌, ◌^◌, ◌∷◌, [], IfOk, length, map, sum_by};
ghost use Rattle.std.specs.List.{All};
ghost use Rattle.word_filter.specs.Words.{HasWords, filter_of};
ghost use Rattle.block_model.specs.Columns.{values_of};
ghost use Rattle.block_body.specs.Outlines.{filter_named};

use crate::head::ColumnHead;
use crate::held_columns::HeldColumns;
use crate::names::Name;
use block_column::ValueColumn;
use block_model::{NumberedRef, column_values, value_near};
use std::alloc::{AllocError, Global};
use token_bloom::Bloom;
use word_filter::filter_of;

/// The columns of these names: their heads, and their values.
pub(crate) fn columns_of(
    alloc: Global,
    rows: &[NumberedRef<'_>],
    names: &[Name],
) -> Result<(Vec<ColumnHead>, HeldColumns), AllocError>
    requires few { length rows.now ≤ 4096 }
    requires narrow { length names.now ≤ 2000 }
    ensures heads { IfOk result (λ x. x.0.items ≡ map (filter_named rows.now) names.now) }
    ensures values { IfOk result (λ x. x.1 ≡ map (values_of rows.now) names.now) }
{
    if rows.len() == 1 {
        return columns_of_row(alloc, &rows[0], names);
    }
    let (heads, columns) = columns_of_rows(alloc, rows, names)?;
    Ok((heads, HeldColumns::of(columns)))
}

/// The columns of one row.
fn columns_of_row(
    alloc: Global,
    numbered: &NumberedRef<'_>,
    names: &[Name],
) -> Result<(Vec<ColumnHead>, HeldColumns), AllocError>
    requires { length names.now ≤ 2000 }
    ensures heads { IfOk result (λ x. x.0.items ≡ map (filter_named (numbered.now ∷ [])) names.now) }
    ensures values { IfOk result (λ x. x.1 ≡ map (values_of (numbered.now ∷ [])) names.now) }
{
    let mut heads = Vec::with_capacity(alloc, names.len())?;
    let mut values = Vec::with_capacity(alloc, names.len())?;
    let mut place = 0;
    for name in names {
        // The fields have these names, one after another.
        let value = value_near(numbered, name.as_str(), &mut place);
        heads.push(head_of_value(alloc, name, value)?)?;
        values.push(value)?;
        place = place.wrapping_add(1);
    }
    let columns = HeldColumns::of_row(alloc, values.as_slice())?;
    Ok((heads, columns))
}

/// The head of a column of one row, which has this value.
fn head_of_value(alloc: Global, name: &Name, value: &str) -> Result<ColumnHead, AllocError>
    requires { length value.now < 2 ^ 32 }
    ensures { IfOk result (λ head. head ≡ (name.now, filter_of (value.now ∷ []))) }
{
    let bloom = filter_of(alloc, &[value])?;
    let shared = name.share()?;
    Ok(ColumnHead::new(shared, bloom))
}

fn columns_of_rows(
    alloc: Global,
    rows: &[NumberedRef<'_>],
    names: &[Name],
) -> Result<(Vec<ColumnHead>, Vec<ValueColumn>), AllocError>
    requires { length rows.now ≤ 4096 }
    ensures heads { IfOk result (λ x. x.0.items ≡ map (filter_named rows.now) names.now) }
    ensures values { IfOk result (λ x. x.1.items ≡ map (values_of rows.now) names.now) }
{
    let mut heads = Vec::with_capacity(alloc, names.len())?;
    let mut columns = Vec::with_capacity(alloc, names.len())?;
    for name in names {
        let (head, column) = column_of(alloc, rows, name)?;
        heads.push(head)?;
        columns.push(column)?;
    }
    Ok((heads, columns))
}

fn column_of(
    alloc: Global,
    rows: &[NumberedRef<'_>],
    name: &Name,
) -> Result<(ColumnHead, ValueColumn), AllocError>
    requires { length rows.now ≤ 4096 }
    ensures head { IfOk result (λ x. x.0 ≡ filter_named rows.now name.now) }
    ensures values { IfOk result (λ x. x.1 ≡ values_of rows.now name.now) }
{
    let values = column_values(alloc, rows, name.as_str())?;
    let column = ValueColumn::try_of(alloc, values.as_slice())?;
    let bloom = filter_of_column(alloc, &column, values.as_slice())?;
    let shared = name.share()?;
    Ok((ColumnHead::new(shared, bloom), column))
}

/// The filter of the words of a column's values, whose texts are at hand. Only distinct values are searched for words
/// where the column holds those.
pub fn filter_of_column(
    alloc: Global,
    column: &ValueColumn,
    values: &[&str],
) -> Result<Bloom, AllocError>
    requires values { map (λ t. t.now) values.now ≡ column.now }
    requires small { sum_by length column.now < 2 ^ 32 }
    ensures filter { IfOk result (λ bloom. bloom ≡ filter_of column.now) }
    ensures words { IfOk result (λ bloom. All (HasWords bloom) column.now) }
    ensures small { IfOk result (λ bloom. length bloom < 2 ^ 32) }
{
    match column.members(alloc)? {
        Some(members) => {
            let bloom = filter_of(alloc, members.as_slice())?;
            Ok(bloom)
        }
        None => {
            let bloom = filter_of(alloc, values)?;
            Ok(bloom)
        }
    }
}

/// The same, of a column whose texts are not at hand. They are lent only where the column does not hold distinct
/// values.
pub fn filter_of_held(alloc: Global, column: &ValueColumn) -> Result<Bloom, AllocError>
    requires { sum_by length column.now < 2 ^ 32 }
    ensures filter { IfOk result (λ bloom. bloom ≡ filter_of column.now) }
    ensures words { IfOk result (λ bloom. All (HasWords bloom) column.now) }
    ensures small { IfOk result (λ bloom. length bloom < 2 ^ 32) }
{
    match column.members(alloc)? {
        Some(members) => {
            let bloom = filter_of(alloc, members.as_slice())?;
            Ok(bloom)
        }
        None => {
            let bloom = filter_of_texts(alloc, column)?;
            Ok(bloom)
        }
    }
}

fn filter_of_texts(alloc: Global, column: &ValueColumn) -> Result<Bloom, AllocError>
    requires { sum_by length column.now < 2 ^ 32 }
    ensures filter { IfOk result (λ bloom. bloom ≡ filter_of column.now) }
    ensures words { IfOk result (λ bloom. All (HasWords bloom) column.now) }
    ensures small { IfOk result (λ bloom. length bloom < 2 ^ 32) }
{
    let lent = column.row_texts(alloc)?;
    let texts = lent.texts(alloc)?;
    let bloom = filter_of(alloc, texts.as_slice())?;
    Ok(bloom)
}
