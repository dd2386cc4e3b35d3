//! Whether the rows of blocks may be those of a part.

ghost use Rattle.std.specs.Prelude.{◌≡◌, ◌-◌, ◌^◌, ◌++◌, IfOk, IsTrue, OnOk, map, min};
ghost use Rattle.std.specs.List.{AllByRecursion};
ghost use Rattle.std.specs.List.Sorted.{IsPermutation, IsSorted};
ghost use Rattle.block_format.specs.Rows.{IsBlock, number_cmp, number_of};
ghost use Rattle.part_model.specs.Filling.{rows_in_blocks};
ghost use Rattle.part_model.specs.Part.{ArePartRows, rows_weight};

use crate::read::MAX_WEIGHT;
use block_format::are_rising;
use column_block::{Block, Steps};
use std::alloc::{AllocError, Global};

/// Tells this counter of steps from others.
#[derive(Drop)]
struct Numbering;

/// Whether there is a block, each row has a number of its own, and together the rows weigh at most 67,108,864 bytes.
pub(crate) fn are_part_blocks(alloc: Global, blocks: &[Block]) -> Result<bool, AllocError>
    requires { AllByRecursion IsBlock blocks.now }
    ensures { IfOk result (λ holds. IsTrue holds → ArePartRows (rows_in_blocks blocks.now)) }
{
    if blocks.is_empty() || weight_of(blocks) > MAX_WEIGHT {
        return Ok(false);
    }
    let numbers = sorted_numbers(alloc, blocks)?;
    Ok(are_rising(numbers.as_slice()))
}

/// The bytes of the names and values of the rows, or the largest `u64` where they are more.
fn weight_of(blocks: &[Block]) -> u64
    ensures { result ≡ min (rows_weight (rows_in_blocks blocks.now)) (2 ^ 64 - 1) }
{
    let mut weight: u64 = 0;
    for block in blocks {
        weight = weight.saturating_add(block.weight());
    }
    weight
}

/// The numbers of the batches and the places of the rows, in order.
fn sorted_numbers(alloc: Global, blocks: &[Block]) -> Result<Vec<(u64, u32)>, AllocError>
    ensures same { IfOk result (λ numbers. IsPermutation (map number_of (rows_in_blocks blocks.now)) numbers.items) }
    ensures sorted { IfOk result (λ numbers. IsSorted number_cmp numbers.items) }
{
    let mut numbers = numbers_of(alloc, blocks)?;
    numbers.sort_unstable();
    Ok(numbers)
}

fn numbers_of(alloc: Global, blocks: &[Block]) -> Result<Vec<(u64, u32)>, AllocError>
    ensures { IfOk result (λ numbers. numbers.items ≡ map number_of (rows_in_blocks blocks.now)) }
{
    let mut numbers = Vec::new(alloc);
    for block in blocks {
        put_numbers(&mut numbers, block)?;
    }
    Ok(numbers)
}

/// Appends the numbers of the batches and the places of the rows.
fn put_numbers(numbers: &mut Vec<(u64, u32)>, block: &Block) -> Result<(), AllocError>
    ensures { OnOk result (numbers.new.items ≡ numbers.old.items ++ map number_of block.now) }
{
    let mut steps = Steps::<Numbering>::new();
    let opened = block.open(&mut steps);
    for i in 0..opened.len() {
        let (_, batch, place) = opened.key(i);
        numbers.push((batch, place))?;
    }
    Ok(())
}
