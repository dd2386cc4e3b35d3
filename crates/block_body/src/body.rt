//! What a block holds beside its head. The numbers of the batches stand outside of the body, so that blocks of which
//! only these differ can share one.

ghost use Rattle.std.specs.Prelude.{◌≡◌, ◌<◌, ◌++◌, ◌==◌, ℕ, IfOk, IfSome, OnOk, Some, length, map, replicate, slice_get};
ghost use Rattle.std.specs.Int.{w64, to_le_bytes};
ghost use Rattle.std.specs.List.{flat_map, list_all};
ghost use Rattle.block_body.specs.Held.{AreEven, IsWide, batch_at, key_at, keys_in, numbers_in};

use crate::held_columns::HeldColumns;
use block_model::Key;
use byte_format::put_u64s;
use std::alloc::{AllocError, Global};
use std::sync::Arc;

/// The times and the places of a block's rows, and its columns.
#[derive(Drop)]
pub(crate) struct Body {
    pub(crate) times: Vec<i64>,
    pub(crate) places: Vec<u32>,
    pub(crate) columns: HeldColumns,
}

/// The numbers of the batches of a block's rows.
#[derive(Drop)]
pub(crate) enum Batches {
    /// All rows are of one batch.
    One(u64),
    /// The number of each row's batch.
    Each(Arc<Vec<u64>>),
}

impl Body {
    /// The key of a row, whose batch has its number among these.
    pub(crate) fn key(&self, batches: &Batches, i: usize) -> Key
        requires even { AreEven self.now batches.now }
        requires time { i < length self.now.times.items }
        requires place { i < length self.now.places.items }
        ensures { slice_get (keys_in self.now batches.now) i ≡ Some result }
    {
        let batch = number_at(batches, self.times.len(), i);
        key_at(self.times.as_slice(), self.places.as_slice(), batch, i)
    }
}

impl Batches {
    /// The same numbers, which share their memory.
    pub(crate) fn share(&self) -> Result<Batches, AllocError>
        ensures numbers { IfOk result (λ batches. (rows : ℕ) → numbers_in rows batches ≡ numbers_in rows self.now) }
        ensures wide { IfOk result (λ batches. (rows : ℕ) → IsWide rows self.now → IsWide rows batches) }
    {
        match self {
            Batches::One(number) => Ok(Batches::One(*number)),
            Batches::Each(numbers) => {
                let shared = Arc::try_clone(numbers)?;
                Ok(Batches::Each(shared))
            }
        }
    }
}

/// The number of the batch of the row at this place, of this many.
fn number_at(batches: &Batches, _rows: usize, i: usize) -> u64
    requires wide { IsWide _rows batches.now }
    requires within { i < _rows }
    ensures { result ≡ batch_at i batches.now }
{
    match batches {
        Batches::One(number) => *number,
        Batches::Each(numbers) => numbers[i],
    }
}

/// The key of the row at this place, which is of this batch.
fn key_at(times: &[i64], places: &[u32], batch: u64, i: usize) -> Key
    requires time { i < length times.now }
    requires place { i < length places.now }
    ensures { result ≡ key_at times.now places.now batch i }
{
    Key {
        time: times[i],
        batch,
        place: places[i],
    }
}

/// The body of the rows of these keys, which have these columns.
pub(crate) fn body_of(alloc: Global, keys: &[Key], columns: HeldColumns) -> Result<Body, AllocError>
    ensures times { IfOk result (λ body. body.times.items ≡ map (λ key. key.time) keys.now) }
    ensures places { IfOk result (λ body. body.places.items ≡ map (λ key. key.place) keys.now) }
    ensures columns { IfOk result (λ body. body.columns ≡ columns) }
{
    let mut times = Vec::with_capacity(alloc, keys.len())?;
    let mut places = Vec::with_capacity(alloc, keys.len())?;
    for key in keys {
        times.push(key.time)?;
        places.push(key.place)?;
    }
    Ok(Body {
        times,
        places,
        columns,
    })
}

/// The numbers of the batches of the rows of these keys.
pub(crate) fn batches_of(alloc: Global, keys: &[Key]) -> Result<Batches, AllocError>
    ensures wide { IfOk result (IsWide (length keys.now)) }
    ensures numbers { IfOk result (λ batches.
        numbers_in (length keys.now) batches ≡ map (λ key. key.batch) keys.now) }
{
    if let Some(batch) = one_batch(keys) {
        return Ok(Batches::One(batch));
    }
    let numbers = numbers_of(alloc, keys)?;
    let shared = Arc::new(alloc, numbers)?;
    Ok(Batches::Each(shared))
}

/// The batch of all keys, if they are of one.
fn one_batch(keys: &[Key]) -> Option<u64>
    ensures { IfSome result (λ batch. replicate (length keys.now) batch ≡ map (λ key. key.batch) keys.now) }
{
    if keys.is_empty() {
        return None;
    }
    let batch = keys[0].batch;
    if !are_of(keys, batch) {
        return None;
    }
    Some(batch)
}

fn are_of(keys: &[Key], batch: u64) -> bool
    ensures { result ≡ list_all (λ key. key.batch == batch) keys.now }
{
    keys.iter().all(|key| key.batch == batch)
}

fn numbers_of(alloc: Global, keys: &[Key]) -> Result<Vec<u64>, AllocError>
    ensures { IfOk result (λ numbers. numbers.items ≡ map (λ key. key.batch) keys.now) }
{
    let mut numbers = Vec::with_capacity(alloc, keys.len())?;
    for key in keys {
        numbers.push(key.batch)?;
    }
    Ok(numbers)
}

/// Appends the number of the batch of each of this many rows.
pub(crate) fn put_batches(
    out: &mut Vec<u8>,
    batches: &Batches,
    rows: usize,
) -> Result<(), AllocError>
    ensures { OnOk result (out.new.items
        ≡ out.old.items ++ flat_map (to_le_bytes w64) (numbers_in rows batches.now)) }
{
    match batches {
        Batches::One(number) => put_same(out, *number, rows),
        Batches::Each(numbers) => put_u64s(out, numbers.as_slice()),
    }
}

fn put_same(out: &mut Vec<u8>, number: u64, times: usize) -> Result<(), AllocError>
    ensures { OnOk result (out.new.items
        ≡ out.old.items ++ flat_map (to_le_bytes w64) (replicate times number)) }
{
    for _ in 0..times {
        out.extend_from_slice(&number.to_le_bytes())?;
    }
    Ok(())
}
