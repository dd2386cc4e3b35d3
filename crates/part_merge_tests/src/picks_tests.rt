//! Blocks of picked rows.
ghost use Rattle.std.specs.Prelude.{IfOk, IfSome, IsTrue};
ghost use Rattle.block_format.specs.Rows.{IsBlock};

use crate::rows_tests::{put_block, rows_of};
use block_model::lend;
use column_block::{Block, ColumnNames, is_block};
use part_picks::Pick;
use std::alloc::{AllocError, Global};
use vl_row::Numbered;

/// Returns the text of the block that the rows of two blocks make up.
pub fn picked_text(alloc: Global, text: &str) -> Result<String, AllocError> {
    let (first, second) = text.split_once('/').unwrap_or((text, ""));
    let (Some(first), Some(second)) = (block_of(alloc, first)?, block_of(alloc, second)?) else {
        return format!(in alloc; "no block");
    };
    let Some(block) = picked(alloc, &first, &second)? else {
        return format!(in alloc; "no picks");
    };
    let mut text = String::new(alloc);
    put_block(alloc, &mut text, &block)?;
    Ok(text)
}

/// Returns the block of the rows, or `None` if they make up none.
fn block_of(alloc: Global, text: &str) -> Result<Option<Block>, AllocError>
    ensures { IfOk result (λ found. IfSome found IsBlock) }
{
    let Some(rows) = rows_of(alloc, text)? else {
        return Ok(None);
    };
    if !are_block(alloc, rows.as_slice())? {
        return Ok(None);
    }
    let block = Block::try_of(alloc, rows.as_slice())?;
    Ok(Some(block))
}

/// Returns the block of the first row of the first block, of all rows of the second, and of the others of the first.
/// Returns `None` if they make up no block, or if the first has one row only.
fn picked(alloc: Global, first: &Block, second: &Block) -> Result<Option<Block>, AllocError>
    requires first { IsBlock first.now }
    requires second { IsBlock second.now }
{
    let many = first.head().rows();
    if many < 2 {
        return Ok(None);
    }
    let whole = Pick::whole(first);
    let picks = [whole.front(1), Pick::whole(second), whole.rest(1)];
    let rows = part_picks::rows_of(alloc, &picks)?;
    if !are_block(alloc, rows.as_slice())? {
        return Ok(None);
    }
    let all = second.head().rows();
    let picks = [first.pick(0, 1), second.pick(0, all), first.pick(1, many)];
    let mut names = ColumnNames::new(alloc);
    let block = Block::of_picks(alloc, &picks, &mut names)?;
    Ok(Some(block))
}

/// Returns whether the rows make up a block.
fn are_block(alloc: Global, rows: &[Numbered]) -> Result<bool, AllocError>
    ensures { IfOk result (λ holds. IsTrue holds → IsBlock rows.now) }
{
    let lent = lend(alloc, rows)?;
    is_block(alloc, lent.as_slice())
}
