//! The times, batches and places of the rows of a look.

use column_block::{Open, Steps};
use log_core::Snapshot;
use part_file::Part;
use std::alloc::{AllocError, Global};

/// Tells the steps of these tests from others.
#[derive(Drop)]
struct Listed;

/// Returns of each row its time, the number of its batch, and its place there, in the order of the parts.
pub(crate) fn keys_of(
    alloc: Global,
    look: &Snapshot<Part>,
) -> Result<Vec<(i64, u64, u32)>, AllocError> {
    let mut keys = Vec::new(alloc);
    for i in 0..look.len() {
        put_keys(&mut keys, look.part(i))?;
    }
    Ok(keys)
}

/// Appends those of a part.
fn put_keys(keys: &mut Vec<(i64, u64, u32)>, part: &Part) -> Result<(), AllocError> {
    let mut steps: Steps<Listed> = Steps::new();
    for block in part.blocks() {
        let open = block.open(&mut steps);
        put_opened(keys, &open)?;
    }
    Ok(())
}

/// Appends those of a block.
fn put_opened(keys: &mut Vec<(i64, u64, u32)>, open: &Open<'_>) -> Result<(), AllocError> {
    for i in 0..open.len() {
        keys.push(open.key(i))?;
    }
    Ok(())
}
