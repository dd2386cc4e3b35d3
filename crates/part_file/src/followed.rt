//! Whether blocks follow one another as those of a part do.

ghost use Rattle.std.specs.Prelude.{◌≡◌, ◌<◌, ◌≤◌, ◌*◌, ◌&&◌, ◌++◌, [], ◌∷◌, IfOk, IsTrue, OnOk, Some};
ghost use Rattle.std.specs.Prelude.{false, length, map, nat_le, slice_get};
ghost use Rattle.std.specs.BTreeSet.{insert_key, keys};
ghost use Rattle.std.specs.List.{AllByRecursion, fold};
ghost use Rattle.log_model.specs.Field.{bytes_cmp};
ghost use Rattle.block_format.specs.Rows.{IsBlock};
ghost use Rattle.block_model.specs.Columns.{names_of, put_names};
ghost use Rattle.part_model.specs.Filling.{has_room};
ghost use Rattle.part_file.specs.Followed.{AreFollowed, IsFollowedBy};

use block_format::{MAX_CELLS, MAX_COLUMNS, MAX_ROWS};
use block_model::lent_row;
use column_block::{Block, Head, Steps};
use part_model::is_earlier;
use std::alloc::{AllocError, Global};
use std::collections::BTreeSet;
use vl_row::{Field, Numbered};

/// Tells this counter of steps from others.
#[derive(Drop)]
struct Reading;

/// Whether the last row of each block is earlier than the first of the next one, for which the block has no room.
pub(crate) fn are_followed(alloc: Global, blocks: &[Block]) -> Result<bool, AllocError>
    requires { AllByRecursion IsBlock blocks.now }
    ensures { IfOk result (λ good. IsTrue good → AreFollowed blocks.now) }
{
    for i in 1..blocks.len() {
        if !is_followed(alloc, &blocks[i - 1], &blocks[i])? {
            return Ok(false);
        }
    }
    Ok(true)
}

fn is_followed(alloc: Global, block: &Block, next: &Block) -> Result<bool, AllocError>
    requires block { IsBlock block.now }
    requires next { IsBlock next.now }
    ensures { IfOk result (λ good. IsTrue good → IsFollowedBy block.now next.now) }
{
    let last = row_at(alloc, block, block.head().rows() - 1)?;
    let first = row_at(alloc, next, 0)?;
    if !is_earlier(&lent_row(&last), &lent_row(&first)) {
        return Ok(false);
    }
    is_full(alloc, block, &first)
}

fn row_at(alloc: Global, block: &Block, i: usize) -> Result<Numbered, AllocError>
    requires { i < length block.now }
    ensures { IfOk result (λ numbered. slice_get block.now i ≡ Some numbered) }
{
    let mut steps = Steps::<Reading>::new();
    let opened = block.open(&mut steps);
    let numbered = opened.row(alloc, i)?;
    Ok(numbered)
}

/// Whether the block has no room for the row.
fn is_full(alloc: Global, block: &Block, next: &Numbered) -> Result<bool, AllocError>
    requires { IsBlock block.now }
    ensures { IfOk result (λ full. IsTrue full → has_room block.now next.now ≡ false) }
{
    let head = block.head();
    let rows = head.rows();
    if rows >= MAX_ROWS {
        return Ok(true);
    }
    if !head.stream().is_same(next.row.stream()) {
        return Ok(true);
    }
    let columns = columns_with(alloc, block, next)?;
    Ok(!are_within(rows + 1, columns))
}

/// Whether a block may have this many rows, at most 4,096, with this many columns.
fn are_within(rows: usize, columns: usize) -> bool
    requires { rows ≤ 4096 }
    ensures { result ≡ nat_le columns 2000 && nat_le (rows * columns) 1_048_576 }
{
    columns <= MAX_COLUMNS && rows * columns <= MAX_CELLS
}

/// How many columns the block would have with the row.
fn columns_with(alloc: Global, block: &Block, next: &Numbered) -> Result<usize, AllocError>
    ensures { IfOk result (λ count. count ≡ length (names_of (block.now ++ next.now ∷ []))) }
{
    let mut names = BTreeSet::new(alloc);
    put_columns(&mut names, block.head())?;
    put_fields(&mut names, next.row.fields().as_slice())?;
    Ok(names.len())
}

/// Puts the names of the columns to the others.
fn put_columns<'a>(names: &mut BTreeSet<&'a str>, head: &'a Head) -> Result<(), AllocError>
    ensures { OnOk result (map (λ t. t.now) (keys names.new)
        ≡ fold (insert_key bytes_cmp) (map (λ t. t.now) (keys names.old)) (map (λ column. column.0) head.now.columns)) }
{
    for c in 0..head.columns() {
        names.insert(head.name(c))?;
    }
    Ok(())
}

/// Puts the names of the fields to the others.
fn put_fields<'a>(names: &mut BTreeSet<&'a str>, fields: &'a [Field]) -> Result<(), AllocError>
    ensures { OnOk result (map (λ t. t.now) (keys names.new)
        ≡ put_names (map (λ t. t.now) (keys names.old)) fields.now) }
{
    for field in fields {
        names.insert(name_of(field))?;
    }
    Ok(())
}

fn name_of(field: &Field) -> &str
    ensures { result.now ≡ field.now.0 }
{
    field.name.as_str()
}
