//! That each call does what it says.
ghost use Rattle.turn_lock.specs.Passes.{IsPassOf};

use crate::batches_tests::{are_rows_of, batch_of, insert_one, row_count, rows_of};
use crate::callers_tests::{fault_of_one, insert_by_two};
use log_desk::{Desk, InsertFault, Pass};
use std::alloc::{AllocError, Global};
use std::sync::Wait;
use turn_lock::SplitFault;

/// Returns whether a desk with one number says that it is spent.
pub fn spent_split<R>(rt: &R, alloc: Global) -> Result<bool, AllocError> {
    let fault = fault_of_one(rt, alloc)?;
    Ok(matches!(fault, SplitFault::Spent { made: 1 }))
}

/// Returns what two passes of one desk answer: the numbers of their batches and the front between them, and how many
/// rows one look at the end has of the first batch, of the second, and in all.
fn by_two<R: Wait>(
    rt: &R,
    alloc: Global,
) -> Result<Option<((u64, u64, u64), (u64, u64, u64))>, AllocError> {
    let (desk, mut pass) = Desk::fresh(rt, alloc, 2)?;
    let (Some(first), Some(second)) = (batch_of(alloc, "a")?, batch_of(alloc, "b")?) else {
        return Ok(None);
    };
    let Some(numbers) = insert_by_two(rt, alloc, &desk, &mut pass, (first, second)) else {
        return Ok(None);
    };
    let look = desk.look(rt, &mut pass)?;
    let rows = (rows_of(&look, "a"), rows_of(&look, "b"), row_count(&look));
    Ok(Some((numbers, rows)))
}

/// Returns whether they answer so: the second batch comes after the look, which holds the first.
pub fn two_passes<R: Wait>(rt: &R, alloc: Global) -> Result<bool, AllocError> {
    Ok(by_two(rt, alloc)? == Some(((1, 1, 2), (1, 1, 2))))
}

/// Returns how many batches a pass has seen, and how many of them were settled.
fn seen_by(pass: &Pass) -> (u64, u64) {
    (pass.front(), pass.settled())
}

/// Returns whether a pass that is split off has the same front, and keeps it while it takes no turn.
pub fn split_pass<R: Wait>(rt: &R, alloc: Global) -> Result<bool, AllocError> {
    let (desk, mut pass) = Desk::fresh(rt, alloc, 3)?;
    let none = seen_by(&pass) == (0, 0);
    let Ok(early) = desk.split(&mut pass) else {
        return Ok(false);
    };
    let first = insert_one(rt, alloc, &desk, &mut pass, "a")? == Some(1);
    let Ok(late) = desk.split(&mut pass) else {
        return Ok(false);
    };
    let kept = seen_by(&early) == (0, 0);
    Ok(none && first && kept && seen_by(&late) == (1, 0) && seen_by(&pass) == (1, 0))
}

/// Returns whether a pass that another is joined to has the longer front of both.
pub fn joined_pass<R: Wait>(rt: &R, alloc: Global) -> Result<bool, AllocError> {
    let (desk, mut pass) = Desk::fresh(rt, alloc, 3)?;
    let (Ok(mut ahead), Ok(behind)) = (desk.split(&mut pass), desk.split(&mut pass)) else {
        return Ok(false);
    };
    let first = insert_one(rt, alloc, &desk, &mut ahead, "a")? == Some(1);
    let apart = seen_by(&ahead) == (1, 0) && seen_by(&pass) == (0, 0);
    desk.join(&mut pass, ahead);
    let longer = seen_by(&pass) == (1, 0);
    desk.join(&mut pass, behind);
    Ok(first && apart && longer && seen_by(&pass) == (1, 0))
}

/// Inserts this many batches of one row, and says whether they got their numbers in turn.
fn inserts_in_turn<R: Wait>(
    rt: &R,
    alloc: Global,
    desk: &Desk,
    pass: &mut Pass,
    count: u64,
) -> Result<bool, AllocError>
    requires { IsPassOf desk.now pass.old }
    ensures { IsPassOf desk.now pass.new }
{
    for number in 1..=count {
        if insert_one(rt, alloc, desk, pass, "a")? != Some(number) {
            return Ok(false);
        }
    }
    Ok(true)
}

/// Returns whether one more batch, of three rows, is refused as the 4,097th, and comes back whole.
fn is_full<R: Wait>(rt: &R, alloc: Global, desk: &Desk, pass: &mut Pass) -> Result<bool, AllocError>
    requires { IsPassOf desk.now pass.old }
    ensures { IsPassOf desk.now pass.new }
{
    let Some(batch) = batch_of(alloc, "first\nsecond\nthird")? else {
        return Ok(false);
    };
    let Err((fault, batch)) = desk.insert(rt, alloc, pass, batch) else {
        return Ok(false);
    };
    // It weighs four bytes a row for the name `_msg`, and 16 for the messages.
    Ok(
        fault == InsertFault::Full { held: 4_096 }
            && are_rows_of(batch.rows(), "first\nsecond\nthird")
            && batch.weight() == 28,
    )
}

/// Returns whether a desk takes 4,096 batches, and no more.
pub fn full_desk<R: Wait>(rt: &R, alloc: Global) -> Result<bool, AllocError> {
    let (desk, mut pass) = Desk::fresh(rt, alloc, 1)?;
    let none = desk.status(rt, &mut pass) == (0, 0);
    let taken = inserts_in_turn(rt, alloc, &desk, &mut pass, 4_096)?;
    let full = is_full(rt, alloc, &desk, &mut pass)?;
    let counted = desk.status(rt, &mut pass) == (4_096, 0);
    Ok(none && taken && full && counted && desk.look(rt, &mut pass)?.front() == 4_096)
}

/// Returns whether each fault prints as its text.
pub fn faults_print(alloc: Global) -> Result<bool, AllocError> {
    let full = InsertFault::Full { held: 4_096 };
    Ok(
        full.to_string(alloc)?.as_str() == "full 4096"
            && InsertFault::Spent.to_string(alloc)?.as_str() == "spent"
            && InsertFault::Memory.to_string(alloc)?.as_str() == "no memory",
    )
}
