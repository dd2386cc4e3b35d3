//! Whether keys are those of a block.

ghost use Rattle.std.specs.Prelude.{◌≡◌, ◌<◌, ◌^◌, [], IfOk, IsTrue, int_lt, map, not, pos, unsigned_abs};
ghost use Rattle.std.specs.List.{AllByRecursion};
ghost use Rattle.std.specs.List.Sorted.{IsPermutation, IsSorted};
ghost use Rattle.block_model.specs.Columns.{row_of};
ghost use Rattle.block_reading.specs.ByColumns.{AreBlockKeys, IsFitKey, bare, number_in};
ghost use Rattle.block_format.specs.Rows.{are_numbered_apart, are_ordered, comes_before, number_cmp};

use block_format::are_rising;
use block_model::Key;
use std::alloc::{AllocError, Global};

/// Whether the times are not before 1970, the keys are in order, and no number is there twice.
pub(crate) fn are_block_keys(alloc: Global, keys: &[Key]) -> Result<bool, AllocError>
    ensures { IfOk result (λ good. IsTrue good → AreBlockKeys keys.now) }
{
    if !are_fit(keys) || !are_ordered(keys) {
        return Ok(false);
    }
    let apart = are_apart(alloc, keys)?;
    Ok(apart)
}

fn are_fit(keys: &[Key]) -> bool
    ensures { IsTrue result → AllByRecursion IsFitKey keys.now }
{
    for key in keys {
        if !is_fit(*key) {
            return false;
        }
    }
    true
}

/// Whether the time is not before 1970.
fn is_fit(key: Key) -> bool
    ensures { IsTrue result → IsFitKey key }
{
    is_late(key.time, key.batch, key.place)
}

fn is_late(time: i64, batch: u64, place: u32) -> bool
    ensures late { result ≡ not (int_lt time (pos 0)) }
    ensures time { IsTrue result → unsigned_abs time < 2 ^ 63 }
    ensures batch { batch < 2 ^ 64 }
    ensures place { place < 2 ^ 32 }
{
    time >= 0
}

/// Whether each key comes before all keys after it.
fn are_ordered(keys: &[Key]) -> bool
    ensures { result ≡ are_ordered (bare keys.now) }
{
    for i in 1..keys.len() {
        if !comes_before(keys[i - 1], keys[i]) {
            return false;
        }
    }
    true
}

/// Whether the key is earlier, or at the same time of an earlier batch, or at an earlier place of the same batch.
fn comes_before(a: Key, b: Key) -> bool
    ensures { result ≡ comes_before (row_of [] a []) (row_of [] b []) }
{
    let time = a.time.unsigned_abs();
    let other = b.time.unsigned_abs();
    time < other
        || (time == other && (a.batch < b.batch || (a.batch == b.batch && a.place < b.place)))
}

/// Whether no number is there twice.
fn are_apart(alloc: Global, keys: &[Key]) -> Result<bool, AllocError>
    ensures { IfOk result (λ apart. apart ≡ are_numbered_apart (bare keys.now)) }
{
    let numbers = numbers_of(alloc, keys)?;
    let sorted = sorted(numbers);
    let apart = are_rising(sorted.as_slice());
    Ok(apart)
}

fn sorted(numbers: Vec<(u64, u32)>) -> Vec<(u64, u32)>
    ensures same { IsPermutation numbers.items result.items }
    ensures sorted { IsSorted number_cmp result.items }
{
    let mut numbers = numbers;
    numbers.sort_unstable();
    numbers
}

fn numbers_of(alloc: Global, keys: &[Key]) -> Result<Vec<(u64, u32)>, AllocError>
    ensures { IfOk result (λ numbers. numbers.items ≡ map number_in keys.now) }
{
    let mut numbers = Vec::with_capacity(alloc, keys.len())?;
    for key in keys {
        numbers.push((key.batch, key.place))?;
    }
    Ok(numbers)
}
