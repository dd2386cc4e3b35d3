//! Where rows stand that match.
ghost use Rattle.std.specs.Prelude.{◌≡◌, ◌≤◌, ◌<◌, ◌++◌, ℕ, Bool, IfOk, OnOk, [], false};
ghost use Rattle.std.specs.Prelude.{filter, length, map, slice_index_or};
ghost use Rattle.std.specs.List.{All};
ghost use Rattle.std.specs.List.Sorted.{IsPermutation};
ghost use Rattle.log_model.specs.History.{Numbered};
ghost use Rattle.lq_filter.specs.Tree.{condition_of};
ghost use Rattle.block_scan.specs.Scans.{condition_of_scanner, moment_of_scanner};
ghost use Rattle.matching_rows.specs.Found.{HasFound, IsFound, comes_before, row_there};
ghost use Rattle.matching_rows.specs.Matches.{matches_in, rows_of_all};
ghost use Rattle.matching_rows.specs.declared.found.Found.{Found as TheFound};

use block_scan::Scanner;
use column_block::Open;
use lq_filter::Prepared;
use std::alloc::{AllocError, Global};

/// Where a row stands: the number of its batch, its place there, its block, and its index in the block.
#[derive(Clone, Copy, PartialEq, Eq, PartialOrd, Ord)]
pub(crate) struct Found {
    pub(crate) batch: u64,
    pub(crate) place: u32,
    pub(crate) block: usize,
    pub(crate) row: usize,
}

/// Returns where the rows stand for which the filter holds, block by block.
pub(crate) fn all_found(
    alloc: Global,
    filter: &Prepared,
    now: i64,
    opened: &[Open<'_>],
) -> Result<Vec<Found>, AllocError>
    ensures { IfOk result (λ found. HasFound opened.now
        (matches_in (condition_of filter.now) now (rows_of_all opened.now)) found.items) }
{
    let mut scanner = Scanner::new(alloc, filter, now);
    let mut found = Vec::new(alloc);
    for block in 0..opened.len() {
        push_found(&mut scanner, opened, block, &mut found)?;
    }
    Ok(found)
}

/// Appends where the rows of one block stand for which the filter holds.
fn push_found(
    scanner: &mut Scanner<'_>,
    opened: &[Open<'_>],
    block: usize,
    found: &mut Vec<Found>,
) -> Result<(), AllocError>
    requires block { block < length opened.now }
    requires each { All (IsFound opened.now) found.old.items }
    ensures found { OnOk result (HasFound opened.now (map (row_there opened.now) found.old.items
        ++ matches_in (condition_of_scanner scanner.old) (moment_of_scanner scanner.old)
        (slice_index_or opened.now block [])) found.new.items) }
    ensures filter { condition_of_scanner scanner.new ≡ condition_of_scanner scanner.old }
    ensures moment { moment_of_scanner scanner.new ≡ moment_of_scanner scanner.old }
{
    let mask = scanner.scan(&opened[block])?;
    push_marked(mask.as_slice(), opened, block, found)
}

/// Appends where the rows of one block stand that are marked.
fn push_marked(
    mask: &[bool],
    opened: &[Open<'_>],
    block: usize,
    found: &mut Vec<Found>,
) -> Result<(), AllocError>
    requires block { block < length opened.now }
    requires long { length mask.now ≡ length (slice_index_or opened.now block []) }
    requires each { All (IsFound opened.now) found.old.items }
    ensures { OnOk result ((test : Numbered → Bool) → mask.now ≡ map test (slice_index_or opened.now block [])
        → HasFound opened.now (map (row_there opened.now) found.old.items
        ++ filter test (slice_index_or opened.now block [])) found.new.items) }
{
    let rows = &opened[block];
    for row in 0..mask.len() {
        if mask[row] {
            let (_, batch, place) = rows.key(row);
            found.push(Found {
                batch,
                place,
                block,
                row,
            })?;
        }
    }
    Ok(())
}

/// Returns the same ones in the order of their batches, and of their places in a batch. They stay where they are if
/// they stand in this order.
pub(crate) fn in_order(mut found: Vec<Found>) -> Vec<Found>
    ensures same { IsPermutation found.items result.items }
    ensures sorted { (i j : ℕ) (d : TheFound) → i ≤ j → j < length result.items
        → comes_before (slice_index_or result.items j d) (slice_index_or result.items i d) ≡ false }
{
    if !found.as_slice().is_sorted() {
        found.as_mut_slice().sort_unstable();
    }
    found
}
