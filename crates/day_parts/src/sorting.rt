//! Picked rows in the order of their days.

ghost use Rattle.std.specs.Prelude.{◌≡◌, ◌<◌, IfOk, ℕ, length, map};
ghost use Rattle.std.specs.List.{filter};
ghost use Rattle.std.specs.List.Sorted.{IsNonDecreasingBy, IsPermutation};
ghost use Rattle.day_parts.specs.Runs.{EndsDay, is_day};

use crate::picking::DayPick;
use part_picks::Pick;
use std::alloc::{AllocError, Global};

/// The rows day by day. Those of one day stay in their order.
pub(crate) fn in_days(mut picks: Vec<DayPick<'_>>) -> Result<Vec<DayPick<'_>>, AllocError>
    ensures same { IfOk result (λ sorted. IsPermutation picks.entry.items sorted.items) }
    ensures sorted { IfOk result (λ sorted. IsNonDecreasingBy (λ rows. rows.0) sorted.items) }
    ensures order { IfOk result (λ sorted. (day : ℕ)
        → filter (is_day day) sorted.items ≡ filter (is_day day) picks.entry.items) }
{
    picks.sort_by_key(|pick| pick.0)?;
    Ok(picks)
}

/// How many of the first days are the same.
pub(crate) fn run_end(picks: &[DayPick<'_>]) -> usize
    requires { 0 < length picks.now }
    ensures { EndsDay picks.now result }
{
    let day = picks[0].0;
    let mut end = 1;
    while end < picks.len() && picks[end].0 == day {
        end += 1;
    }
    end
}

/// The rows without their days.
pub(crate) fn without_days<'a>(
    alloc: Global,
    picks: &[DayPick<'a>],
) -> Result<Vec<Pick<'a>>, AllocError>
    ensures { IfOk result (λ rows. rows.items ≡ map (λ pick. pick.1) picks.now) }
{
    let mut rows = Vec::with_capacity(alloc, picks.len())?;
    for pick in picks {
        rows.push(pick.1.copied())?;
    }
    Ok(rows)
}
