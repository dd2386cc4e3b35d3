//! Reading parts.

ghost use Rattle.std.specs.Prelude.{◌≡◌, ◌-◌, ◌^◌, ◌↔◌, IfNone, IfOk, IfSome, IsTrue, MatchOption, None, false, map};
ghost use Rattle.std.specs.Prelude.{min, true};
ghost use Rattle.std.specs.List.{All, list_all};
ghost use Rattle.std.specs.List.Sorted.{IsPermutation, IsSorted};
ghost use Rattle.byte_format.specs.Spelling.{HasSpelling};
ghost use Rattle.block_format.specs.Reading.{has_spelling};
ghost use Rattle.block_format.specs.Rows.{number_cmp, number_of};
ghost use Rattle.part_model.specs.Filling.{rows_in_blocks};
ghost use Rattle.part_model.specs.Part.{ArePartRows, rows_weight};
ghost use Rattle.part_file.specs.Format.{part_writing, rows_said};
ghost use Rattle.part_file.specs.Read.{WasRead, rows_of_items};

use crate::block_rows::BlockRows;
use crate::part::Part;
use crate::take::take_blocks;
use block_format::are_rising;
use byte_format::{Spelled, Stop};
use std::alloc::{AllocError, Global};
use vl_row::Numbered;

/// The largest weight of a part.
pub(crate) const MAX_WEIGHT: u64 = 67_108_864;

/// The items of a part. They may still be no part.
#[derive(Drop)]
pub(crate) struct PartItems {
    blocks: Vec<BlockRows>,
}

impl Spelled for PartItems {
    ghost use Rattle.std.specs.Prelude.{List, map};
    ghost use Rattle.std.specs.List.{All};
    ghost use Rattle.log_model.specs.History.{Numbered as NumberedRow};
    ghost use Rattle.part_file.specs.Format.{part, part_writing, rows_said};
    ghost use Rattle.part_file.specs.Read.{WasRead, rows_of_items};
    ghost use Rattle.part_file.specs.Again.{is_read_again};

    type Context = ();

    type Output = Part;

    ghost Meaning = { List NumberedRow };

    ghost format = { λ _. part };

    ghost writing = { λ _. part_writing };

    ghost meant = { λ items. rows_said (map rows_of_items items.blocks.items) };

    ghost meaning = { λ rows. rows };

    ghost was_read = { λ _ items. All WasRead items.blocks.items };

    fn take(alloc: Global, _context: (), bytes: &[u8]) -> Result<(PartItems, &[u8]), Stop> {
        match take_blocks(alloc, bytes) {
            Ok((blocks, rest)) => Ok((PartItems { blocks }, rest)),
            Err(stop) => Err(stop),
        }
    }

    fn make(self, alloc: Global, _context: ()) -> Result<Option<Part>, AllocError> {
        let made = part_of_items(alloc, self.blocks.as_slice())?;
        Ok(made)
    }

    fn put(part: &Part, _context: (), out: &mut Vec<u8>) -> Result<(), AllocError> {
        part.put(out)?;
        Ok(())
    }

    ghost again = { λ _. is_read_again };
}

/// The part of the rows that the items of the blocks say, if they are a part.
fn part_of_items(alloc: Global, items: &[BlockRows]) -> Result<Option<Part>, AllocError>
    requires { All WasRead items.now }
    ensures some { IfOk result (λ made. IfSome made (λ part. part ≡ rows_said (map rows_of_items items.now))) }
    ensures spelled { IfOk result (λ made. IfSome made (λ part. HasSpelling (part_writing part))) }
    ensures none { IfOk result (λ made. IfNone made (part_writing (rows_said (map rows_of_items items.now)) ≡ None)) }
{
    let Some(rows) = rows_of(alloc, items)? else {
        return Ok(None);
    };
    if !are_part_rows(alloc, rows.as_slice())? {
        return Ok(None);
    }
    let part = Part::try_of(alloc, rows)?;
    part.rules();
    let _ = part.to_bytes(alloc)?;
    Ok(Some(part))
}

/// The rows of the blocks, unless the items of one are not those of a block.
fn rows_of(alloc: Global, items: &[BlockRows]) -> Result<Option<Vec<Numbered>>, AllocError>
    requires { All WasRead items.now }
    ensures { IfOk result (λ found. MatchOption found
        (list_all has_spelling (map rows_of_items items.now) ≡ false)
        (λ rows. (rows.items ≡ rows_in_blocks (map rows_of_items items.now))
        × (list_all has_spelling (map rows_of_items items.now) ≡ true))) }
{
    let mut all = Vec::new(alloc);
    for item in items {
        match item.rows(alloc)? {
            Some(mut rows) => all.append(&mut rows)?,
            None => return Ok(None),
        }
    }
    Ok(Some(all))
}

/// Whether the rows may be those of a part: there is at least one, each has a number of its own, and together they
/// weigh at most 67,108,864 bytes.
pub fn are_part_rows(alloc: Global, rows: &[Numbered]) -> Result<bool, AllocError>
    ensures { IfOk result (λ holds. IsTrue holds ↔ ArePartRows rows.now) }
{
    if rows.is_empty() {
        return Ok(false);
    }
    if weight_of(rows) > MAX_WEIGHT {
        return Ok(false);
    }
    let numbers = sorted_numbers(alloc, rows)?;
    Ok(are_rising(numbers.as_slice()))
}

/// The bytes of the names and values of the rows, or the largest `u64` where they are more.
fn weight_of(rows: &[Numbered]) -> u64
    ensures { result ≡ min (rows_weight rows.now) (2 ^ 64 - 1) }
{
    let mut weight: u64 = 0;
    for numbered in rows {
        weight = weight.saturating_add(numbered.row.weight());
    }
    weight
}

/// The numbers of the batches and the places of the rows, in order.
fn sorted_numbers(alloc: Global, rows: &[Numbered]) -> Result<Vec<(u64, u32)>, AllocError>
    ensures same { IfOk result (λ numbers. IsPermutation (map number_of rows.now) numbers.items) }
    ensures sorted { IfOk result (λ numbers. IsSorted number_cmp numbers.items) }
{
    let mut numbers = numbers_of(alloc, rows)?;
    numbers.sort_unstable();
    Ok(numbers)
}

fn numbers_of(alloc: Global, rows: &[Numbered]) -> Result<Vec<(u64, u32)>, AllocError>
    ensures { IfOk result (λ numbers. numbers.items ≡ map number_of rows.now) }
{
    let mut numbers = Vec::with_capacity(alloc, rows.len())?;
    for numbered in rows {
        numbers.push((numbered.batch, numbered.place))?;
    }
    Ok(numbers)
}
