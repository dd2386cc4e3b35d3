//! The chunks' edges, swaps, and memory that runs out.

use crate::parts_tests::{
    commit_one, fill, holds, is_full, refuses_shared, settle, settle_none, settled_shelf,
};
use log_core::{Shelf, SwapFault};
use std::alloc::{AllocError, Global};

/// Returns whether looks before and after one batch more hold what there was then. A chunk has 64 parts, and 4,096
/// batches may wait.
pub fn looks_stay(alloc: Global, count: u64) -> Result<bool, AllocError> {
    let next = count.saturating_add(1);
    let mut shelf = Shelf::fresh(alloc)?;
    let filled = fill(alloc, &mut shelf, count)?;
    let before = shelf.look()?;
    let committed = commit_one(alloc, &mut shelf, count % 2 == 0)? == Some(next);
    let after = shelf.look()?;
    Ok(filled && committed && holds(alloc, &before, count, 0)? && holds(alloc, &after, next, 0)?)
}

/// Returns whether a shelf holds 4,096 batches that wait, and has room for another once one of them is settled.
pub fn full_shelf(alloc: Global) -> Result<bool, AllocError> {
    let mut shelf = Shelf::fresh(alloc)?;
    let full = fill(alloc, &mut shelf, 4_096)? && is_full(alloc, &mut shelf)?;
    let held = holds(alloc, &shelf.look()?, 4_096, 0)?;
    let settled = settle(alloc, &mut shelf, 1)? == Some(Ok(()));
    let again = commit_one(alloc, &mut shelf, true)? == Some(4_097) && is_full(alloc, &mut shelf)?;
    Ok(full && held && settled && again && holds(alloc, &shelf.look()?, 4_097, 1)?)
}

/// Returns whether swaps leave the later batches, and each look what it holds.
pub fn swaps_leave_the_later(alloc: Global, front: u64) -> Result<bool, AllocError> {
    let mut shelf = Shelf::fresh(alloc)?;
    let mut same = fill(alloc, &mut shelf, 200)?;
    let before = shelf.look()?;
    same = settle(alloc, &mut shelf, front)? == Some(Ok(())) && same;
    let swapped = shelf.look()?;
    same = fill(alloc, &mut shelf, 300)? && same;
    let filled = shelf.look()?;
    for next in [front, 200, 290] {
        same = settle(alloc, &mut shelf, next)? == Some(Ok(())) && same;
        same = holds(alloc, &shelf.look()?, 300, next)? && same;
    }
    Ok(
        same && holds(alloc, &before, 200, 0)?
            && holds(alloc, &swapped, 200, front)?
            && holds(alloc, &filled, 300, front)?,
    )
}

/// Returns whether a shelf of the parts of this many batches holds them as settled, and goes on after them.
pub fn settled_from_the_start(alloc: Global, count: u64) -> Result<bool, AllocError> {
    let next = count.saturating_add(1);
    let mut shelf = Shelf::fresh(alloc)?;
    let filled = fill(alloc, &mut shelf, count)?;
    let mut settled = settled_shelf(alloc, &shelf)?;
    let held = holds(alloc, &settled.look()?, count, count)?;
    let committed = commit_one(alloc, &mut settled, true)? == Some(next);
    let swapped = settle(alloc, &mut settled, next)? == Some(Ok(()));
    Ok(filled && held && committed && swapped && holds(alloc, &settled.look()?, next, next)?)
}

/// Returns whether a swap behind what is settled is refused, and nothing changes.
pub fn swap_behind(alloc: Global) -> Result<bool, AllocError> {
    let mut shelf = Shelf::fresh(alloc)?;
    let settled = fill(alloc, &mut shelf, 4_096)?
        && settle(alloc, &mut shelf, 4_096)? == Some(Ok(()));
    let refused = settle_none(alloc, &mut shelf);
    let behind = Err(SwapFault::Behind {
        settled: 4_096,
        front: 0,
    });
    Ok(settled && refused == behind && holds(alloc, &shelf.look()?, 4_096, 4_096)?)
}

/// Returns whether a part whose box is shared is refused, and the shelf stays empty.
pub fn shared_box(alloc: Global) -> Result<bool, AllocError> {
    let mut shelf = Shelf::fresh(alloc)?;
    Ok(refuses_shared(alloc, &mut shelf)? && shelf.count() == 0)
}
