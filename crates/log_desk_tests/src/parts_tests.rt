//! Batches of one row, whose message is the number that the batch gets, and what a look has of them.
ghost use Rattle.std.specs.Prelude.{◌≡◌, ◌≤◌, IfOk, IfSome, length, take};
ghost use Rattle.log_model.specs.Core.{parts_of};
ghost use Rattle.log_model.specs.History.{AreBatch};
ghost use Rattle.log_model.specs.Core.{AreFront};
ghost use Rattle.log_core.specs.Shared.{shared_parts};

use crate::batches_tests::rows_with;
use log_core::{CommitFault, Shelf, Snapshot, SwapFault};
use part_file::Part;
use std::alloc::{AllocError, Global};
use std::sync::Arc;
use vl_row::{Batch, FieldList, Held, Row};

/// Returns a part of one row, whose message is this number.
pub(crate) fn part_of(alloc: Global, number: u64) -> Result<Option<Part>, AllocError>
    ensures { IfOk result (λ part. IfSome part AreBatch) }
{
    let message = format!(in alloc; "{number}")?;
    let mut fields = FieldList::new(alloc);
    fields.set(alloc, "_msg", message.as_str())?;
    let Ok(row) = Row::try_new(alloc, 0, &[], fields) else {
        return Ok(None);
    };
    let mut rows = Vec::new(alloc);
    rows.push(row)?;
    match Batch::try_of(rows) {
        Ok(batch) => Ok(Some(Part::of_batch(alloc, &batch)?)),
        Err(_) => Ok(None),
    }
}

/// Commits one more batch by either call, and returns its number, or `None` where it is refused.
pub(crate) fn commit_one(
    alloc: Global,
    shelf: &mut Shelf<Part>,
    in_box: bool,
) -> Result<Option<u64>, AllocError> {
    let number = shelf.count().saturating_add(1);
    let Some(part) = part_of(alloc, number)? else {
        return Ok(None);
    };
    if in_box {
        let part = Arc::new(alloc, part)?;
        Ok(shelf.commit_shared(alloc, part).ok())
    } else {
        Ok(shelf.commit(alloc, part).ok())
    }
}

/// Commits batches until there are this many, and returns whether they got their numbers in turn.
pub(crate) fn fill(alloc: Global, shelf: &mut Shelf<Part>, count: u64) -> Result<bool, AllocError> {
    let mut in_turn = true;
    for number in shelf.count()..count {
        let found = commit_one(alloc, shelf, number % 2 == 0)?;
        in_turn = in_turn && found == Some(number.saturating_add(1));
    }
    Ok(in_turn)
}

/// Returns whether a look holds this many batches, each as the part at its place.
pub(crate) fn holds(
    alloc: Global,
    look: &Snapshot<Part>,
    count: u64,
    settled: u64,
) -> Result<bool, AllocError> {
    let mut same = look.front() == count
        && look.settled() == settled
        && look.len() as u64 == count
        && look.is_empty() == (count == 0);
    for place in 0..look.len() {
        let number = format!(in alloc; "{}", (place as u64).saturating_add(1))?;
        let part = look.part(place);
        same = same && part.rows() == 1 && rows_with(part, number.as_str()) == 1;
    }
    Ok(same)
}

/// Returns the first parts of a look.
fn first_parts(
    alloc: Global,
    look: &Snapshot<Part>,
    count: usize,
) -> Result<Vec<Arc<Part>>, AllocError>
    requires { count ≤ length (parts_of look.now) }
    ensures { IfOk result (λ parts. shared_parts parts.items ≡ take count (parts_of look.now)) }
{
    let mut parts = Vec::new(alloc);
    for place in 0..count {
        parts.push(Arc::try_clone(look.part(place))?)?;
    }
    Ok(parts)
}

/// Returns the parts of the first `front` batches, or `None` where there are fewer batches or more are settled.
fn front_parts(
    alloc: Global,
    shelf: &Shelf<Part>,
    front: u64,
) -> Result<Option<Vec<Arc<Part>>>, AllocError>
    ensures { IfOk result (λ days. IfSome days (λ list.
        AreFront (λ rows. rows) shelf.now front (shared_parts list.items))) }
{
    let count = shelf.count();
    let settled = shelf.settled();
    if front < settled {
        return Ok(None);
    }
    if count < front {
        return Ok(None);
    }
    let look = shelf.look()?;
    let later = (count - front) as usize;
    let all = look.len();
    if all < later {
        return Ok(None);
    }
    let days = first_parts(alloc, &look, all - later)?;
    Ok(Some(days))
}

/// Swaps these parts in as day parts, or returns `None` where there are fewer batches or more are settled.
pub(crate) fn settle(
    alloc: Global,
    shelf: &mut Shelf<Part>,
    front: u64,
) -> Result<Option<Result<(), SwapFault>>, AllocError> {
    match front_parts(alloc, shelf, front)? {
        Some(days) => Ok(Some(shelf.swap(alloc, front, days))),
        None => Ok(None),
    }
}

/// Returns a shelf of the same batches, all of which are settled.
pub(crate) fn settled_shelf(alloc: Global, shelf: &Shelf<Part>) -> Result<Shelf<Part>, AllocError> {
    let count = shelf.count();
    let look = shelf.look()?;
    let days = first_parts(alloc, &look, look.len())?;
    Shelf::of_days(alloc, days, count)
}

/// Swaps in no day parts for the first 0 batches.
pub(crate) fn settle_none(alloc: Global, shelf: &mut Shelf<Part>) -> Result<(), SwapFault> {
    let _count = shelf.count();
    shelf.swap(alloc, 0, Vec::new(alloc))
}

/// Returns whether one more batch is refused as the 4,097th that waits, by either call, and comes back.
pub(crate) fn is_full(alloc: Global, shelf: &mut Shelf<Part>) -> Result<bool, AllocError> {
    let Some(part) = part_of(alloc, 7)? else {
        return Ok(false);
    };
    let Err((fault, Some(part))) = shelf.commit(alloc, part) else {
        return Ok(false);
    };
    let in_turn = fault == CommitFault::Full { held: 4_096 } && part.rows() == 1;
    let Some(part) = part_of(alloc, 7)? else {
        return Ok(false);
    };
    let Err((fault, part)) = shelf.commit_shared(alloc, Arc::new(alloc, part)?) else {
        return Ok(false);
    };
    Ok(
        in_turn
            && fault == CommitFault::Full { held: 4_096 }
            && part.weight() == 5
            && rows_with(&part, "7") == 1,
    )
}

/// Returns whether a part whose box someone else has is refused.
pub(crate) fn refuses_shared(alloc: Global, shelf: &mut Shelf<Part>) -> Result<bool, AllocError> {
    let Some(part) = part_of(alloc, 7)? else {
        return Ok(false);
    };
    let part = Arc::new(alloc, part)?;
    let other = Arc::try_clone(&part)?;
    let Err((fault, _back)) = shelf.commit_shared(alloc, part) else {
        return Ok(false);
    };
    Ok(fault == CommitFault::Memory && other.rows() == 1)
}
