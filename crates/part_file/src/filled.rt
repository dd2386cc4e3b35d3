//! Filling rows in order into blocks.

ghost use Rattle.std.specs.Prelude.{◌≡◌, ◌≤◌, IfOk, length};
ghost use Rattle.log_model.specs.History.{numbered_in};
ghost use Rattle.log_model.specs.Row.{IsBatch, batch_limit};
ghost use Rattle.part_model.specs.Filling.{AreFilled, rows_in_blocks};
ghost use Rattle.part_model.specs.Part.{IsPart, rows_weight};

use block_model::NumberedRef;
use column_block::{Block, ColumnNames};
use part_model::block_end;
use std::alloc::{AllocError, Global};
use vl_row::{Batch, Row};

/// Lends the rows of a batch, under the batch number 0.
pub(crate) fn batch_rows(alloc: Global, batch: &Batch) -> Result<Vec<NumberedRef<'_>>, AllocError>
    ensures rows { IfOk result (λ lent. lent.items ≡ numbered_in 0 batch.now) }
    ensures rules { IsBatch batch.now }
{
    let lent = lent_rows(alloc, batch.rows())?;
    Ok(lent)
}

/// Lends rows, under the batch number 0.
fn lent_rows(alloc: Global, rows: &[Row]) -> Result<Vec<NumberedRef<'_>>, AllocError>
    requires { IsBatch rows.now }
    ensures { IfOk result (λ lent. lent.items ≡ numbered_in 0 rows.now) }
{
    let mut lent = Vec::with_capacity(alloc, rows.len())?;
    for (place, row) in rows.iter().enumerate() {
        lent.push(NumberedRef {
            batch: 0,
            place: place as u32,
            row,
        })?;
    }
    Ok(lent)
}

/// The rows in blocks. Blocks next to each other share the names of their columns if these are the same.
pub(crate) fn filled(alloc: Global, rows: &[NumberedRef<'_>]) -> Result<Vec<Block>, AllocError>
    requires { IsPart rows.now }
    ensures { IfOk result (λ blocks. AreFilled blocks.items rows.now) }
{
    let mut blocks = Vec::new(alloc);
    let mut names = ColumnNames::new(alloc);
    let mut start = 0;
    while start < rows.len() {
        let rest = &rows[start..];
        let end = block_end(alloc, rest)?;
        let block = Block::of_lent(alloc, &rest[..end], &mut names)?;
        blocks.push(block)?;
        start += end;
    }
    Ok(blocks)
}

/// The bytes of the names and the values of all rows.
pub(crate) fn weight_of(blocks: &[Block]) -> u64
    requires { rows_weight (rows_in_blocks blocks.now) ≤ batch_limit }
    ensures { result ≡ rows_weight (rows_in_blocks blocks.now) }
{
    let mut weight = 0;
    for block in blocks {
        weight += block.weight();
    }
    weight
}

/// How many rows there are. No memory holds 2^64 or more, for which out of memory is returned.
pub(crate) fn count_of(blocks: &[Block]) -> Result<u64, AllocError>
    ensures { IfOk result (λ count. count ≡ length (rows_in_blocks blocks.now)) }
{
    let mut count: u64 = 0;
    for block in blocks {
        match count.checked_add(block.head().rows() as u64) {
            Some(more) => count = more,
            None => return Err(AllocError),
        }
    }
    Ok(count)
}

/// The same blocks, which share their memory.
pub(crate) fn shared(alloc: Global, blocks: &[Block]) -> Result<Vec<Block>, AllocError>
    ensures { IfOk result (λ copies. copies.items ≡ blocks.now) }
{
    let mut copies = Vec::with_capacity(alloc, blocks.len())?;
    for block in blocks {
        copies.push(block.share()?)?;
    }
    Ok(copies)
}
