//! Picks that are moved from a queue to others.

ghost use Rattle.std.specs.Prelude.{◌<◌, IfSome, IsTrue, List, OnOk, length, slice_get, take};
ghost use Rattle.log_model.specs.History.{Numbered as NumberedRow};
ghost use Rattle.part_merge.specs.Before.{AreMoved, are_before};

use crate::earlier::earlier_rows;
use part_picks::Pick;
use std::alloc::AllocError;
use std::collections::VecDeque;

/// Moves the first rows, which are earlier than the first of the other, to the picks.
pub(crate) fn move_earlier<'a>(
    queue: &mut VecDeque<Pick<'a>>,
    other: &Pick<'a>,
    picks: &mut Vec<Pick<'a>>,
) -> Result<(), AllocError>
    requires some { 0 < length queue.old.items }
    requires first { IfSome (slice_get queue.old.items 0) (λ pick.
        IsTrue (are_before (take 1 pick) (take 1 other.now))) }
    ensures { OnOk result ((moved : List NumberedRow) × AreMoved moved queue.old.items queue.new.items
        picks.old.items picks.new.items × IsTrue (are_before moved (take 1 other.now))) }
{
    let Some(pick) = queue.pop_front() else {
        unreachable!()
    };
    let count = earlier_rows(&pick, other);
    if count < pick.len() {
        queue.push_front(pick.rest(count))?;
        picks.push(pick.front(count))?;
    } else {
        picks.push(pick)?;
    }
    Ok(())
}
