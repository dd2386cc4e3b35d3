//! The numbers of rows.
ghost use Rattle.std.specs.Prelude.{◌≡◌, ◌++◌, ◌-◌, ◌^◌, IfOk, OnOk, length, map, min};
ghost use Rattle.std.specs.Arc.{arc_value};
ghost use Rattle.std.specs.List.{flat_map};
ghost use Rattle.block_format.specs.Rows.{number_of};
ghost use Rattle.part_model.specs.Filling.{rows_in_blocks};
ghost use Rattle.part_batches.specs.Counted.{are_counted, goes_on};

use column_block::{Block, Steps};
use part_file::Part;
use std::alloc::{AllocError, Global};
use std::sync::Arc;
use vl_row::Held;

/// Counts the blocks that are opened here.
enum Opened {}

/// Returns how many rows the parts have, or the largest `u64` where there are more.
pub(crate) fn rows_of(parts: &[Arc<Part>]) -> u64
    ensures { result ≡ min (length (rows_in_blocks (map arc_value parts.now))) (2 ^ 64 - 1) }
{
    let mut rows: u64 = 0;
    for part in parts {
        let part: &Part = part;
        rows = rows.saturating_add(part.rows());
    }
    rows
}

/// Returns the numbers of the batches and the places of the rows. There are to be so many.
pub(crate) fn numbers_of(
    alloc: Global,
    parts: &[Arc<Part>],
    rows: u64,
) -> Result<Vec<(u64, u32)>, AllocError>
    ensures { IfOk result (λ numbers.
        numbers.items ≡ map number_of (rows_in_blocks (map arc_value parts.now))) }
{
    let mut numbers = Vec::with_capacity(alloc, rows as usize)?;
    for part in parts {
        put_part(&mut numbers, part)?;
    }
    Ok(numbers)
}

/// Appends the numbers of the rows of the part.
fn put_part(numbers: &mut Vec<(u64, u32)>, part: &Part) -> Result<(), AllocError>
    ensures { OnOk result (numbers.new.items ≡ numbers.old.items ++ map number_of part.now) }
{
    for block in part.blocks() {
        put_block(numbers, block)?;
    }
    Ok(())
}

/// Appends the numbers of the rows of the block.
fn put_block(numbers: &mut Vec<(u64, u32)>, block: &Block) -> Result<(), AllocError>
    ensures { OnOk result (numbers.new.items ≡ numbers.old.items ++ map number_of block.now) }
{
    let mut steps = Steps::<Opened>::new();
    let opened = block.open(&mut steps);
    for i in 0..opened.len() {
        let (_, batch, place) = opened.key(i);
        numbers.push((batch, place))?;
    }
    Ok(())
}

/// Returns whether the numbers are those of the rows of so many batches, one after another: the batches from 1 on, and
/// the places of each from 0 on.
pub(crate) fn are_counted(numbers: &[(u64, u32)], front: u64) -> bool
    ensures { result ≡ are_counted front 0 0 numbers.now }
{
    let mut batch: u64 = 0;
    let mut places: u64 = 0;
    for number in numbers {
        if !goes_on(batch, places, *number) {
            return false;
        }
        batch = number.0;
        places = number.1 as u64 + 1;
    }
    batch == front
}

/// Returns whether the number is the next one after so many places of the batch.
fn goes_on(batch: u64, places: u64, number: (u64, u32)) -> bool
    ensures { result ≡ goes_on batch places number }
{
    let (found, place) = number;
    if place == 0 {
        return found > 0 && found - 1 == batch;
    }
    found == batch && place as u64 == places
}
