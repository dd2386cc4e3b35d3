//! Splitting a part by days.

ghost use Rattle.std.specs.Prelude.{◌≡◌, ◌<◌, IfOk, ℕ, flat_map, length, map};
ghost use Rattle.std.specs.List.{AllByRecursion, filter};
ghost use Rattle.std.specs.List.Sorted.{IsNonDecreasingBy, IsPermutation, IsStrictlySortedBy};
ghost use Rattle.std.specs.Ordering.{nat_cmp};
ghost use Rattle.day_model.specs.Days.{rows_of_day};
ghost use Rattle.part_model.specs.Part.{IsPart};
ghost use Rattle.day_parts.specs.Runs.{EndsDay, all_rows, is_day};

use crate::picking::{DayPick, day_picks};
use crate::sorting::{in_days, run_end, without_days};
use part_file::Part;
use part_picks::part_of;
use std::alloc::{AllocError, Global};

/// A day, counted from 1970-01-01, and a part whose rows are all of this day.
#[derive(Drop)]
pub struct DayPart {
    pub day: u32,
    pub part: Part,
}

/// Splits a part by days. The days rise.
pub fn split_days(alloc: Global, part: &Part) -> Result<Vec<DayPart>, AllocError>
    ensures days { IfOk result (λ days. IsStrictlySortedBy nat_cmp (map (λ day. day.day) days.items)) }
    ensures rows { IfOk result (λ days. AllByRecursion (λ day. day.part ≡ rows_of_day day.day part.now) days.items) }
    ensures same { IfOk result (λ days. IsPermutation (flat_map (λ day. day.part) days.items) part.now) }
{
    part.rules();
    let picks = day_picks(alloc, part.blocks())?;
    let picks = in_days(picks)?;
    let days = day_parts(alloc, picks.as_slice())?;
    Ok(days)
}

/// The parts of the days. Rows of one day stand next to each other.
fn day_parts(alloc: Global, picks: &[DayPick<'_>]) -> Result<Vec<DayPart>, AllocError>
    requires sorted { IsNonDecreasingBy (λ rows. rows.0) picks.now }
    requires parts { (day : ℕ) → 0 < length (all_rows (filter (is_day day) picks.now))
        → IsPart (all_rows (filter (is_day day) picks.now)) }
    ensures days { IfOk result (λ days. IsStrictlySortedBy nat_cmp (map (λ day. day.day) days.items)) }
    ensures rows { IfOk result (λ days. AllByRecursion (λ day.
        day.part ≡ all_rows (filter (is_day day.day) picks.now)) days.items) }
    ensures all { IfOk result (λ days. flat_map (λ day. day.part) days.items ≡ all_rows picks.now) }
{
    let mut days = Vec::new(alloc);
    let mut start = 0;
    while start < picks.len() {
        let rest = &picks[start..];
        let count = run_end(rest);
        let part = run_part(alloc, &rest[..count])?;
        days.push(DayPart {
            day: rest[0].0,
            part,
        })?;
        start += count;
    }
    Ok(days)
}

/// The part of these rows.
fn run_part(alloc: Global, picks: &[DayPick<'_>]) -> Result<Part, AllocError>
    requires some { 0 < length picks.now }
    requires part { 0 < length (all_rows picks.now) → IsPart (all_rows picks.now) }
    ensures { IfOk result (λ part. part ≡ all_rows picks.now) }
{
    let _some = picks[0].1.len();
    let rows = without_days(alloc, picks)?;
    let part = part_of(alloc, rows.as_slice())?;
    Ok(part)
}
