//! The rules on the rows of a block.

ghost use Rattle.std.specs.Prelude.{◌≡◌, ◌↔◌, IfOk, IsTrue, map};
ghost use Rattle.std.specs.List.{AllByRecursion};
ghost use Rattle.std.specs.List.Sorted.{IsPermutation, IsSorted, IsStrictlySortedBy};
ghost use Rattle.log_model.specs.History.{Numbered as NumberedRow};
ghost use Rattle.block_format.specs.Rows.{labels_of};
ghost use Rattle.block_format.specs.Rows.{IsBlock, are_numbered_apart, are_ordered, comes_before};
ghost use Rattle.block_format.specs.Rows.{number_cmp, number_of};

use block_model::{NumberedRef, column_names};
use std::alloc::{AllocError, Global};
use vl_row::Stream;

/// The most rows of a block.
pub const MAX_ROWS: usize = 4_096;

/// The most columns of a block.
pub const MAX_COLUMNS: usize = 2_000;

/// The most cells of a block: rows times columns.
pub const MAX_CELLS: usize = 1_048_576;

/// Whether the rows make up a block: they are of one stream, in order of time,
/// batch and place, with each number once; there are 1 to 4,096 rows, at most 2,000 columns, and at most 1,048,576
/// cells, which are rows times columns.
pub fn is_block(alloc: Global, rows: &[NumberedRef<'_>]) -> Result<bool, AllocError>
    ensures { IfOk result (λ holds. IsTrue holds ↔ IsBlock rows.now) }
{
    if rows.is_empty() || rows.len() > MAX_ROWS {
        return Ok(false);
    }
    let columns = column_names(alloc, rows)?.len();
    if columns > MAX_COLUMNS || columns * rows.len() > MAX_CELLS {
        return Ok(false);
    }
    if !are_of_one_stream(rows) || !are_ordered(rows) {
        return Ok(false);
    }
    are_numbered_apart(alloc, rows)
}

fn are_of_one_stream(rows: &[NumberedRef<'_>]) -> bool
    ensures { IsTrue result
        ↔ AllByRecursion (λ (numbered : NumberedRow). numbered.row.labels ≡ labels_of rows.now) rows.now }
{
    match rows {
        [first, others @ ..] => are_of(first.row.stream(), others),
        [] => true,
    }
}

fn are_of(stream: &Stream, rows: &[NumberedRef<'_>]) -> bool
    ensures { IsTrue result ↔ AllByRecursion (λ (numbered : NumberedRow). numbered.row.labels ≡ stream.now) rows.now }
{
    for numbered in rows {
        if !numbered.row.stream().is_same(stream) {
            return false;
        }
    }
    true
}

/// Whether each row comes before all rows after it.
pub(crate) fn are_ordered(rows: &[NumberedRef<'_>]) -> bool
    ensures { result ≡ are_ordered rows.now }
{
    for i in 1..rows.len() {
        if !comes_before(&rows[i - 1], &rows[i]) {
            return false;
        }
    }
    true
}

/// Whether the row is earlier, or at the same time of an earlier batch, or at an earlier place of the same batch.
pub(crate) fn comes_before(a: &NumberedRef<'_>, b: &NumberedRef<'_>) -> bool
    ensures { result ≡ comes_before a.now b.now }
{
    let time = a.row.time();
    let other = b.row.time();
    time < other
        || (time == other && (a.batch < b.batch || (a.batch == b.batch && a.place < b.place)))
}

/// Whether no number is there twice.
fn are_numbered_apart(alloc: Global, rows: &[NumberedRef<'_>]) -> Result<bool, AllocError>
    ensures { IfOk result (λ apart. apart ≡ are_numbered_apart rows.now) }
{
    let numbers = sorted_numbers(alloc, rows)?;
    Ok(are_rising(numbers.as_slice()))
}

/// Whether no number in order is there twice.
pub fn are_rising(numbers: &[(u64, u32)]) -> bool
    requires { IsSorted number_cmp numbers.now }
    ensures { IsTrue result ↔ IsStrictlySortedBy number_cmp numbers.now }
{
    for i in 1..numbers.len() {
        let before = numbers[i - 1];
        let here = numbers[i];
        if before.0 == here.0 && before.1 == here.1 {
            return false;
        }
    }
    true
}

/// The numbers of the batches and the places of the rows, in order.
fn sorted_numbers(alloc: Global, rows: &[NumberedRef<'_>]) -> Result<Vec<(u64, u32)>, AllocError>
    ensures same { IfOk result (λ numbers. IsPermutation (map number_of rows.now) numbers.items) }
    ensures sorted { IfOk result (λ numbers. IsSorted number_cmp numbers.items) }
{
    let mut numbers = numbers_of(alloc, rows)?;
    numbers.sort_unstable();
    Ok(numbers)
}

fn numbers_of(alloc: Global, rows: &[NumberedRef<'_>]) -> Result<Vec<(u64, u32)>, AllocError>
    ensures { IfOk result (λ numbers. numbers.items ≡ map number_of rows.now) }
{
    let mut numbers = Vec::with_capacity(alloc, rows.len())?;
    for numbered in rows {
        numbers.push((numbered.batch, numbered.place))?;
    }
    Ok(numbers)
}
