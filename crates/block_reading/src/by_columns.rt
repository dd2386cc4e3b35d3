//! Blocks by the columns that were read, without making the rows. Where the items are spelled as those of a block are,
//! there is one. All is asked of the columns before they are moved into the block.

ghost use Rattle.std.specs.Prelude.{◌≡◌, ◌<◌, IfOk, IfSome, IsTrue, length, map};
ghost use Rattle.std.specs.List.{All, AllByRecursion};
ghost use Rattle.std.specs.List.Sorted.{IsStrictlySortedBy};
ghost use Rattle.block_format.specs.Columns.{HasRows};
ghost use Rattle.block_format.specs.Reading.{rows_said};
ghost use Rattle.block_model.specs.Columns.{rows_from};
ghost use Rattle.log_model.specs.Field.{bytes_cmp};
ghost use Rattle.vl_row.specs.Place.{IsInOrder};
ghost use Rattle.block_reading.specs.ByColumns.{AreBlockKeys, AreFew, AreGoodNames, IsFilled};
ghost use Rattle.block_reading.specs.ByColumns.{column_names, contents, filter_for, head_by_keys};
ghost use Rattle.block_reading.specs.Seen.{AreGood, IsSeen};

use crate::keys::are_block_keys;
use crate::labels::have_labels;
use crate::names::are_block_names;
use crate::sizes::weight_of;
use block_body::{ColumnHead, Extent, Head, Name, StoredRows, filter_of_held};
use block_column::ValueColumn;
use block_format::{MAX_CELLS, MAX_COLUMNS, MAX_ROWS, NamedColumn, Parts, stream_said};
use block_model::Key;
use std::alloc::{AllocError, Global};
use vl_row::Stream;

/// What is known of items that are those of a block: the stream of the rows, and the bytes of the fields of all rows.
#[derive(Drop)]
pub(crate) struct Seen {
    stream: Stream,
    weight: u64,
}

/// What is known of the items, if it is seen by the columns that they are those of a block.
///
/// The numbers of rows, columns and labels are asked first. So bytes above the limits are refused before anything is
/// done for each cell.
pub(crate) fn seen_of(alloc: Global, parts: &Parts) -> Result<Option<Seen>, AllocError>
    requires { All (HasRows (length parts.now.keys)) parts.now.columns }
    ensures { IfOk result (λ found. IfSome found (λ seen. IsSeen seen parts.now)) }
{
    let keys = parts.keys.as_slice();
    let columns = parts.columns.as_slice();
    if !are_few(keys.len(), columns.len()) || parts.labels.len() > columns.len() {
        return Ok(None);
    }
    if !are_block_names(columns) {
        return Ok(None);
    }
    let Some(stream) = stream_said(alloc, parts)? else {
        return Ok(None);
    };
    let Some(weight) = weight_seen(alloc, &stream, keys, columns)? else {
        return Ok(None);
    };
    Ok(Some(Seen { stream, weight }))
}

/// The bytes of the fields of all rows, if the rows in this stream of these keys and columns are those of a block.
fn weight_seen(
    alloc: Global,
    stream: &Stream,
    keys: &[Key],
    columns: &[NamedColumn],
) -> Result<Option<u64>, AllocError>
    requires few { AreFew (length keys.now) (length columns.now) }
    requires names { IsStrictlySortedBy bytes_cmp (column_names columns.now) × AreGoodNames columns.now }
    requires rows { All (HasRows (length keys.now)) columns.now }
    ensures { IfOk result (λ found. IfSome found (λ weight. AreGood stream.now weight keys.now columns.now)) }
{
    if !have_labels(columns, stream.as_slice()) || !are_block_keys(alloc, keys)? {
        return Ok(None);
    }
    let Some(weight) = weight_of(alloc, columns, keys.len())? else {
        return Ok(None);
    };
    Ok(Some(weight))
}

fn are_few(rows: usize, columns: usize) -> bool
    ensures { IsTrue result → AreFew rows columns }
{
    if rows == 0 || rows > MAX_ROWS || columns > MAX_COLUMNS {
        return false;
    }
    rows * columns <= MAX_CELLS
}

/// The block of the rows that the items say.
pub(crate) fn block_of(alloc: Global, seen: Seen, parts: Parts) -> Result<StoredRows, AllocError>
    requires rows { All (HasRows (length parts.keys)) parts.columns }
    requires seen { IsSeen seen parts }
    ensures { IfOk result (λ made. made ≡ rows_said parts) }
{
    let keys = parts.keys;
    let columns = parts.columns;
    let made = made_of(alloc, seen, keys.as_slice(), columns)?;
    Ok(made)
}

/// The rows of these keys and columns, which are moved.
fn made_of(
    alloc: Global,
    seen: Seen,
    keys: &[Key],
    columns: Vec<NamedColumn>,
) -> Result<StoredRows, AllocError>
    requires rows { All (HasRows (length keys.now)) columns.items }
    requires good { AreGood seen.stream seen.weight keys.now columns.items }
    ensures { IfOk result (λ made. made ≡ rows_from seen.stream columns.items 0 keys.now) }
{
    let (heads, values) = filled_columns(alloc, columns)?;
    let head = head_of(alloc, seen.stream, keys, seen.weight, heads)?;
    let made = StoredRows::held(alloc, head, keys, values)?;
    Ok(made)
}

/// The head of a block of these keys in this stream, and of this weight.
fn head_of(
    alloc: Global,
    stream: Stream,
    keys: &[Key],
    weight: u64,
    heads: Vec<ColumnHead>,
) -> Result<Head, AllocError>
    requires some { 0 < length keys.now }
    requires keys { AreBlockKeys keys.now }
    requires order { IsInOrder heads.items }
    ensures { IfOk result (λ head. head ≡ head_by_keys stream keys.now weight heads.items) }
{
    let first = keys[0];
    let last = keys[keys.len() - 1];
    let extent = Extent {
        min: first.time,
        max: last.time,
        rows: keys.len(),
        weight,
    };
    let head = Head::new(alloc, stream, extent, heads)?;
    Ok(head)
}

/// The heads and the values of the columns.
fn filled_columns(
    alloc: Global,
    columns: Vec<NamedColumn>,
) -> Result<(Vec<ColumnHead>, Vec<ValueColumn>), AllocError>
    requires { AllByRecursion IsFilled columns.items }
    ensures heads { IfOk result (λ x. x.0.items ≡ map filter_for columns.items) }
    ensures values { IfOk result (λ x. x.1.items ≡ contents columns.items) }
{
    let mut heads = Vec::with_capacity(alloc, columns.len())?;
    let mut values = Vec::with_capacity(alloc, columns.len())?;
    for column in columns {
        let (head, filled) = filled_column(alloc, column)?;
        heads.push(head)?;
        values.push(filled)?;
    }
    Ok((heads, values))
}

/// The head of a column and its values, which are moved.
fn filled_column(
    alloc: Global,
    column: NamedColumn,
) -> Result<(ColumnHead, ValueColumn), AllocError>
    requires { IsFilled column }
    ensures head { IfOk result (λ x. x.0 ≡ filter_for column) }
    ensures values { IfOk result (λ x. x.1 ≡ column.1) }
{
    let values = column.values.into_column(alloc)?;
    let bloom = filter_of_held(alloc, &values)?;
    let name = Name::new(alloc, column.name)?;
    Ok((ColumnHead::new(name, bloom), values))
}
