//! Reading blocks.

ghost use Rattle.std.specs.Prelude.{◌≡◌, IfNone, IfOk, IfSome, None, length};
ghost use Rattle.std.specs.List.{All};
ghost use Rattle.byte_format.specs.Spelling.{HasSpelling};
ghost use Rattle.block_format.specs.Columns.{HasRows};
ghost use Rattle.block_format.specs.Reading.{block_writing, rows_said};

use crate::by_columns::{block_of, seen_of};
use block_body::{ColumnNames, StoredRows};
use block_format::{Parts, is_block, rows_said, take_parts};
use block_model::lend;
use byte_format::{Spelled, Stop};
use std::alloc::{AllocError, Global};

/// The items of a block. They may still be no block.
#[derive(Drop)]
pub struct Items {
    parts: Parts,
}

impl Spelled for Items {
    ghost use Rattle.std.specs.Prelude.{List, length};
    ghost use Rattle.std.specs.List.{All};
    ghost use Rattle.log_model.specs.History.{Numbered as NumberedRow};
    ghost use Rattle.block_format.specs.Columns.{HasRows};
    ghost use Rattle.block_format.specs.Reading.{block as block_items, block_writing, rows_said};
    ghost use Rattle.block_reading.specs.Again.{is_read_again};

    type Context = ();

    type Output = StoredRows;

    ghost Meaning = { List NumberedRow };

    ghost format = { λ _. block_items };

    ghost writing = { λ _. block_writing };

    ghost meant = { λ items. rows_said items.parts };

    ghost meaning = { λ rows. rows };

    ghost was_read = { λ _ items. All (HasRows (length items.parts.keys)) items.parts.columns };

    fn take(alloc: Global, _context: (), bytes: &[u8]) -> Result<(Items, &[u8]), Stop> {
        match take_parts(alloc, bytes) {
            Ok((parts, rest)) => Ok((Items { parts }, rest)),
            Err(stop) => Err(stop),
        }
    }

    fn make(self, alloc: Global, _context: ()) -> Result<Option<StoredRows>, AllocError> {
        let made = made_of(alloc, self.parts)?;
        Ok(made)
    }

    fn put(stored: &StoredRows, _context: (), out: &mut Vec<u8>) -> Result<(), AllocError> {
        stored.put(out)?;
        Ok(())
    }

    ghost again = { λ _. is_read_again };
}

/// The block of the rows that the items say, if they are a block.
fn made_of(alloc: Global, parts: Parts) -> Result<Option<StoredRows>, AllocError>
    requires { All (HasRows (length parts.keys)) parts.columns }
    ensures some { IfOk result (λ found. IfSome found (λ made. made ≡ rows_said parts)) }
    ensures spelled { IfOk result (λ found. IfSome found (λ made. HasSpelling (block_writing made))) }
    ensures none { IfOk result (λ found. IfNone found (block_writing (rows_said parts) ≡ None)) }
{
    if let Some(seen) = seen_of(alloc, &parts)? {
        let made = block_of(alloc, seen, parts)?;
        made.rules();
        return Ok(Some(made));
    }
    block_by_rows(alloc, &parts)
}

/// The same by the rows, all of which are made.
fn block_by_rows(alloc: Global, parts: &Parts) -> Result<Option<StoredRows>, AllocError>
    requires { All (HasRows (length parts.now.keys)) parts.now.columns }
    ensures some { IfOk result (λ found. IfSome found (λ made. made ≡ rows_said parts.now)) }
    ensures spelled { IfOk result (λ found. IfSome found (λ made. HasSpelling (block_writing made))) }
    ensures none { IfOk result (λ found. IfNone found (block_writing (rows_said parts.now) ≡ None)) }
{
    let Some(rows) = rows_said(alloc, parts)? else {
        return Ok(None);
    };
    let lent = lend(alloc, rows.as_slice())?;
    if !is_block(alloc, lent.as_slice())? {
        return Ok(None);
    }
    let mut names = ColumnNames::new(alloc);
    let made = StoredRows::of_lent(alloc, lent.as_slice(), &mut names)?;
    made.rules();
    Ok(Some(made))
}
