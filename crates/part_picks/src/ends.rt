//! Where blocks of picked rows end.

ghost use Rattle.std.specs.Prelude.{◌≡◌, ◌<◌, ◌++◌, IfOk, IfSome, IsTrue, OnOk, ◌↔◌, List, length, map};
ghost use Rattle.std.specs.BTreeSet.{keys};
ghost use Rattle.log_model.specs.History.{Numbered as NumberedRow};
ghost use Rattle.block_format.specs.Rows.{labels_of};
ghost use Rattle.part_model.specs.Ends.{EndsBlock};
ghost use Rattle.part_model.specs.Filling.{rows_in_blocks};
ghost use Rattle.part_picks.specs.Names.{AreNamed};
ghost use Rattle.part_picks.specs.Ahead.{AreAhead};

use crate::copying::copy_rows;
use crate::pick::Pick;
use block_format::MAX_ROWS;
use block_model::lend;
use std::alloc::{AllocError, Global};
use std::collections::{BTreeSet, VecDeque};
use vl_row::Numbered;

/// A block may have its most rows with so many columns.
const FEW_COLUMNS: usize = 256;

/// How many of the rows fill the first block.
pub(crate) fn block_end(alloc: Global, queue: &VecDeque<Pick<'_>>) -> Result<usize, AllocError>
    requires { 0 < length queue.now.items }
    ensures { IfOk result (EndsBlock (rows_in_blocks queue.now.items)) }
{
    let first = &queue[0];
    let _some = first.len();
    if let Some(end) = narrow_end(alloc, queue)? {
        return Ok(end);
    }
    let rows = rows_ahead(alloc, queue)?;
    let lent = lend(alloc, rows.as_slice())?;
    let end = part_model::block_end(alloc, lent.as_slice())?;
    Ok(end)
}

/// The same by the names of the columns, if they are few.
fn narrow_end(alloc: Global, queue: &VecDeque<Pick<'_>>) -> Result<Option<usize>, AllocError>
    requires { 0 < length queue.now.items }
    ensures { IfOk result (λ found. IfSome found (EndsBlock (rows_in_blocks queue.now.items))) }
{
    let first = &queue[0];
    let _some = first.len();
    let mut names = BTreeSet::new(alloc);
    let mut count = 0;
    for i in 0..queue.len() {
        let pick = &queue[i];
        let rows = pick.len();
        if !are_of_one_stream(first, pick) {
            return Ok(Some(count));
        }
        pick.rules();
        put_names(&mut names, pick)?;
        if names.len() > FEW_COLUMNS {
            return Ok(None);
        }
        count += rows;
        if count >= MAX_ROWS {
            return Ok(Some(MAX_ROWS));
        }
    }
    Ok(Some(count))
}

fn are_of_one_stream(pick: &Pick<'_>, other: &Pick<'_>) -> bool
    ensures { IsTrue result ↔ (labels_of pick.now ≡ labels_of other.now) }
{
    pick.stream().is_same(other.stream())
}

/// Puts the names of the columns to the others.
fn put_names<'a>(names: &mut BTreeSet<&'a str>, pick: &Pick<'a>) -> Result<(), AllocError>
    ensures kept { OnOk result ((rows : List NumberedRow) → AreNamed (map (λ t. t.now) (keys names.old)) rows
        → AreNamed (map (λ t. t.now) (keys names.new)) rows) }
    ensures named { OnOk result (AreNamed (map (λ t. t.now) (keys names.new)) pick.now) }
{
    let head = pick.head();
    for c in 0..head.columns() {
        names.insert(head.name(c))?;
    }
    Ok(())
}

/// Copies of the first rows, more than fill a block, or all.
fn rows_ahead(alloc: Global, queue: &VecDeque<Pick<'_>>) -> Result<Vec<Numbered>, AllocError>
    ensures { IfOk result (λ rows. AreAhead rows.items (rows_in_blocks queue.now.items)) }
{
    let mut rows = Vec::new(alloc);
    for i in 0..queue.len() {
        copy_rows(alloc, &queue[i], &mut rows)?;
        if rows.len() > MAX_ROWS {
            return Ok(rows);
        }
    }
    Ok(rows)
}
