//! The rows of blocks, cut where their days change.

ghost use Rattle.std.specs.Prelude.{◌≡◌, ◌<◌, ◌≤◌, ◌++◌, IfOk, IfSome, OnOk, length, slice_get, take};
ghost use Rattle.std.specs.List.{AllByRecursion};
ghost use Rattle.block_format.specs.Rows.{IsBlock};
ghost use Rattle.day_model.specs.Days.{AreOfTheirDays, day_of};
ghost use Rattle.part_model.specs.Filling.{rows_in_blocks};
ghost use Rattle.day_parts.specs.Runs.{IsOfOneDay, all_rows};

use column_block::Block;
use part_picks::Pick;
use std::alloc::{AllocError, Global};

/// The nanoseconds of a day.
const DAY: u64 = 86_400_000_000_000;

/// A day, and rows that are all of this day.
pub(crate) type DayPick<'a> = (u32, Pick<'a>);

/// All rows of the blocks, in their order.
pub(crate) fn day_picks<'a>(
    alloc: Global,
    blocks: &'a [Block],
) -> Result<Vec<DayPick<'a>>, AllocError>
    requires { AllByRecursion IsBlock blocks.now }
    ensures rows { IfOk result (λ picks. all_rows picks.items ≡ rows_in_blocks blocks.now) }
    ensures days { IfOk result (λ picks. AreOfTheirDays picks.items) }
{
    let mut picks = Vec::new(alloc);
    for block in blocks {
        put_picks(block, &mut picks)?;
    }
    Ok(picks)
}

/// Appends all rows of the block.
fn put_picks<'a>(block: &'a Block, picks: &mut Vec<DayPick<'a>>) -> Result<(), AllocError>
    requires { IsBlock block.now }
    ensures rows { OnOk result (all_rows picks.new.items ≡ all_rows picks.old.items ++ block.now) }
    ensures days { OnOk result (AreOfTheirDays picks.old.items → AreOfTheirDays picks.new.items) }
{
    let mut rest = Pick::whole(block);
    let mut end = day_end(&rest);
    while end < rest.len() {
        let first = rest.front(end);
        picks.push((day_at(&first, 0), first))?;
        rest = rest.rest(end);
        end = day_end(&rest);
    }
    picks.push((day_at(&rest, 0), rest))?;
    Ok(())
}

/// How many of the first rows are of the day of the first one, by binary search.
fn day_end(rows: &Pick<'_>) -> usize
    ensures some { 0 < result }
    ensures there { result ≤ length rows.now }
    ensures day { IsOfOneDay (take result rows.now) }
{
    rows.rules();
    let last = rows.len() - 1;
    let day = day_at(rows, 0);
    if day_at(rows, last) == day {
        return last + 1;
    }
    let mut low = 1;
    let mut high = last;
    while low < high {
        let middle = low + (high - low) / 2;
        if day_at(rows, middle) == day {
            low = middle + 1;
        } else {
            high = middle;
        }
    }
    low
}

/// The day of a row.
fn day_at(rows: &Pick<'_>, i: usize) -> u32
    requires { i < length rows.now }
    ensures { IfSome (slice_get rows.now i) (λ row. result ≡ day_of row) }
{
    let (time, _, _) = rows.key(i);
    (time.unsigned_abs() / DAY) as u32
}
