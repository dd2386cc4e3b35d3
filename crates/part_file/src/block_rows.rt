//! Blocks that are read as their rows.

ghost use Rattle.std.specs.Prelude.{◌≡◌, ◌++◌, IfOk, List, MatchOption, OnOk, Some, false, length, true, ℕ};
ghost use Rattle.std.specs.List.{All};
ghost use Rattle.block_format.specs.Columns.{HasRows};
ghost use Rattle.block_format.specs.Reading.{block_writing, has_spelling, rows_said};

use block_format::{Parts, is_block, rows_said, take_parts};
use block_model::{column_names, lend, row_keys};
use byte_format::{Spelled, Stop};
use column_block::{Block, ColumnNames};
use std::alloc::{AllocError, Global};
use vl_row::Numbered;

/// The items of a block, of which the rows are made. They may still be no block.
#[derive(Drop)]
pub(crate) struct BlockRows {
    parts: Parts,
}

impl BlockRows {
    /// The rows of the block, or `None` if the items are not those of a block.
    pub(crate) fn rows(&self, alloc: Global) -> Result<Option<Vec<Numbered>>, AllocError>
        requires { All (HasRows (length self.now.parts.keys)) self.now.parts.columns }
        ensures { IfOk result (λ found. MatchOption found
            (has_spelling (rows_said self.now.parts) ≡ false)
            (λ rows. (rows.items ≡ rows_said self.now.parts) × (has_spelling rows.items ≡ true))) }
    {
        let Some(rows) = rows_said(alloc, &self.parts)? else {
            return Ok(None);
        };
        if !are_block(alloc, rows.as_slice())? {
            return Ok(None);
        }
        Ok(Some(rows))
    }
}

/// Whether the rows make up a block. The keys and the names of the rows are made for what they say of the rows.
fn are_block(alloc: Global, rows: &[Numbered]) -> Result<bool, AllocError>
    ensures { IfOk result (λ holds. holds ≡ has_spelling rows.now) }
{
    let lent = lend(alloc, rows)?;
    let _ = row_keys(alloc, lent.as_slice())?;
    let _ = column_names(alloc, lent.as_slice())?;
    let holds = is_block(alloc, lent.as_slice())?;
    Ok(holds)
}

impl Spelled for BlockRows {
    ghost use Rattle.std.specs.Prelude.{List, length};
    ghost use Rattle.std.specs.List.{All};
    ghost use Rattle.log_model.specs.History.{Numbered as NumberedRow};
    ghost use Rattle.block_format.specs.Columns.{HasRows};
    ghost use Rattle.block_format.specs.Reading.{block as block_items, block_writing, rows_said};
    ghost use Rattle.block_reading.specs.Again.{is_read_again};

    type Context = ();

    type Output = Vec<Numbered>;

    ghost Meaning = { List NumberedRow };

    ghost format = { λ _. block_items };

    ghost writing = { λ _. block_writing };

    ghost meant = { λ items. rows_said items.parts };

    ghost meaning = { λ rows. rows.items };

    ghost was_read = { λ _ items. All (HasRows (length items.parts.keys)) items.parts.columns };

    fn take(alloc: Global, _context: (), bytes: &[u8]) -> Result<(BlockRows, &[u8]), Stop> {
        match take_parts(alloc, bytes) {
            Ok((parts, rest)) => Ok((BlockRows { parts }, rest)),
            Err(stop) => Err(stop),
        }
    }

    fn make(self, alloc: Global, _context: ()) -> Result<Option<Vec<Numbered>>, AllocError> {
        let rows = self.rows(alloc)?;
        Ok(rows)
    }

    fn put(rows: &Vec<Numbered>, _context: (), out: &mut Vec<u8>) -> Result<(), AllocError> {
        put_rows(out, rows.as_slice())?;
        Ok(())
    }

    ghost again = { λ _. is_read_again };
}

/// Appends the block of these rows, if they make up one.
fn put_rows(out: &mut Vec<u8>, rows: &[Numbered]) -> Result<(), AllocError>
    ensures { OnOk result ((bytes : List ℕ) → block_writing rows.now ≡ Some bytes
        → out.new.items ≡ out.old.items ++ bytes) }
{
    let alloc = *out.allocator();
    let lent = lend(alloc, rows)?;
    if !is_block(alloc, lent.as_slice())? {
        return Ok(());
    }
    let mut names = ColumnNames::new(alloc);
    let block = Block::of_lent(alloc, lent.as_slice(), &mut names)?;
    block.put(out)?;
    Ok(())
}
