//! The keys of rows.

ghost use Rattle.std.specs.Prelude.{◌≡◌, ◌<◌, ◌^◌, IfOk};
ghost use Rattle.std.specs.List.{AllByRecursion};
ghost use Rattle.block_model.specs.Keys.{IsNumbered, key_of, keys_of};

use crate::lent::NumberedRef;
use std::alloc::{AllocError, Global};

/// When a row was, in nanoseconds since 1970, the number of its batch, and its place there.
#[derive(Clone, Copy, Debug, Drop, PartialEq, Eq)]
pub struct Key {
    pub time: i64,
    pub batch: u64,
    pub place: u32,
}

/// The keys of the rows.
pub fn row_keys(alloc: Global, rows: &[NumberedRef<'_>]) -> Result<Vec<Key>, AllocError>
    ensures keys { IfOk result (λ keys. keys.items ≡ keys_of rows.now) }
    ensures rules { IfOk result (λ keys. AllByRecursion IsNumbered rows.now) }
{
    let mut keys = Vec::with_capacity(alloc, rows.len())?;
    for numbered in rows {
        keys.push(key_of(numbered))?;
    }
    Ok(keys)
}

fn key_of(numbered: &NumberedRef<'_>) -> Key
    ensures key { result ≡ key_of numbered.now }
    ensures rules { IsNumbered numbered.now }
{
    let row = numbered.row;
    let _ = row.fields();
    checked_key(row.time(), numbered.batch, numbered.place)
}

fn checked_key(time: i64, batch: u64, place: u32) -> Key
    ensures time { result.time ≡ time }
    ensures batch { (result.batch ≡ batch) × (batch < 2 ^ 64) }
    ensures place { (result.place ≡ place) × (place < 2 ^ 32) }
{
    Key { time, batch, place }
}
