//! Filling picked rows into blocks.

ghost use Rattle.std.specs.Prelude.{◌≡◌, IfOk};
ghost use Rattle.block_format.specs.Rows.{IsBlock};
ghost use Rattle.block_gather.specs.Picked.{rows_picked};
ghost use Rattle.part_model.specs.Filling.{AreFilled, rows_in_blocks};
ghost use Rattle.part_model.specs.Part.{IsPart};

use crate::ends::block_end;
use crate::pick::Pick;
use crate::taking::{queued, take_rows};
use column_block::{Block, ColumnNames};
use std::alloc::{AllocError, Global};

/// The rows in blocks. A block that has just the rows of one that is there shares its memory, and no row is made but of
/// rows with more than 256 names.
pub(crate) fn filled(alloc: Global, picks: &[Pick<'_>]) -> Result<Vec<Block>, AllocError>
    requires { IsPart (rows_in_blocks picks.now) }
    ensures { IfOk result (λ blocks. AreFilled blocks.items (rows_in_blocks picks.now)) }
{
    let mut queue = queued(alloc, picks)?;
    let mut names = ColumnNames::new(alloc);
    let mut blocks = Vec::new(alloc);
    while !queue.is_empty() {
        let end = block_end(alloc, &queue)?;
        let rows = take_rows(alloc, &mut queue, end)?;
        let block = block_of(alloc, rows.as_slice(), &mut names)?;
        blocks.push(block)?;
    }
    Ok(blocks)
}

/// The block of these rows.
fn block_of(alloc: Global, picks: &[Pick<'_>], names: &mut ColumnNames) -> Result<Block, AllocError>
    requires { IsBlock (rows_in_blocks picks.now) }
    ensures { IfOk result (λ block. block ≡ rows_in_blocks picks.now) }
{
    if picks.len() == 1 {
        if let Some(block) = picks[0].shared()? {
            return Ok(block);
        }
    }
    let ranges = ranges_of(alloc, picks)?;
    let block = Block::of_picks(alloc, ranges.as_slice(), names)?;
    Ok(block)
}

/// The same rows, to be gathered.
fn ranges_of<'a>(
    alloc: Global,
    picks: &[Pick<'a>],
) -> Result<Vec<column_block::Pick<'a>>, AllocError>
    ensures { IfOk result (λ ranges. rows_picked ranges.items ≡ rows_in_blocks picks.now) }
{
    let mut ranges = Vec::with_capacity(alloc, picks.len())?;
    for pick in picks {
        ranges.push(pick.lent())?;
    }
    Ok(ranges)
}
