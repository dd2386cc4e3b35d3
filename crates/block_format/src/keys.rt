//! The keys of rows.

ghost use Rattle.std.specs.Prelude.{◌≡◌, IfOk, length};
ghost use Rattle.byte_format.specs.Format.{front};
ghost use Rattle.byte_format.specs.Gives.{Gives};
ghost use Rattle.block_format.specs.Keys.{keys, keys_steps, zipped};

use block_model::Key;
use byte_format::{Stop, take_i64s, take_u32s, take_u64s};
use std::alloc::{AllocError, Global};

/// The keys of this many rows at the front of the bytes, and the bytes after them.
pub(crate) fn take_keys(alloc: Global, rows: usize, bytes: &[u8]) -> Result<(Vec<Key>, &[u8]), Stop>
    ensures value { Gives (λ x. (x.0.items, x.1.now)) result (front (keys rows) bytes.now) }
    ensures count { IfOk result (λ x. length x.0.items ≡ rows) }
{
    take_steps(alloc, rows, bytes)
}

#[tactic(auto, unfolding(crate::specs::Keys::keys_steps))]
fn take_steps(alloc: Global, rows: usize, bytes: &[u8]) -> Result<(Vec<Key>, &[u8]), Stop>
    ensures value { Gives (λ x. (x.0.items, x.1.now)) result (keys_steps rows bytes.now) }
    ensures count { IfOk result (λ x. length x.0.items ≡ rows) }
{
    let (times, rest) = take_i64s(alloc, rows, bytes)?;
    let (batches, rest) = take_u64s(alloc, rows, rest)?;
    let (places, rest) = take_u32s(alloc, rows, rest)?;
    let keys = zipped(
        alloc,
        times.as_slice(),
        batches.as_slice(),
        places.as_slice(),
    )?;
    Ok((keys, rest))
}

fn zipped(
    alloc: Global,
    times: &[i64],
    batches: &[u64],
    places: &[u32],
) -> Result<Vec<Key>, AllocError>
    requires batches { length batches.now ≡ length times.now }
    requires places { length places.now ≡ length times.now }
    ensures { IfOk result (λ keys. keys.items ≡ zipped times.now batches.now places.now) }
{
    let mut keys = Vec::with_capacity(alloc, times.len())?;
    for i in 0..times.len() {
        keys.push(Key {
            time: times[i],
            batch: batches[i],
            place: places[i],
        })?;
    }
    Ok(keys)
}
