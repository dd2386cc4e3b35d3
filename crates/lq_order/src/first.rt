//! The places of the first of many records, which are found without sorting all.
ghost use Rattle.std.specs.Prelude.{◌≡◌, ◌<◌, ◌≤◌, IfOk, filter, length, take};
ghost use Rattle.std.specs.List.{range_with_len};
ghost use Rattle.std.specs.List.Sorted.{IsStrictlyIncreasing};
ghost use Rattle.lq_ast.specs.Tuples.{sorted_by};
ghost use Rattle.lq_order.specs.Column.{columns_cmp, is_up_to};
ghost use Rattle.lq_order.specs.First.{HasFirst};

use crate::column::{Column, compare_placed};
use std::alloc::{AllocError, Global};

/// How many places a sample has at least.
const LEAST_SAMPLE: usize = 1024;

/// Returns the places of this many records.
pub(crate) fn all_places(alloc: Global, count: usize) -> Result<Vec<usize>, AllocError>
    ensures { IfOk result (λ places. places.items ≡ range_with_len 0 count) }
{
    let mut places = Vec::with_capacity(alloc, count)?;
    for place in 0..count {
        places.push(place)?;
    }
    Ok(places)
}

/// Of the places of this many records, those of the first `most` by the columns, as they came. This takes expected
/// linear time.
pub(crate) fn first_places(
    alloc: Global,
    columns: &[Column<'_>],
    count: usize,
    most: usize,
) -> Result<Vec<usize>, AllocError>
    requires some { 0 < most }
    requires within { most ≤ count }
    ensures first { IfOk result (λ places. take most (sorted_by (columns_cmp columns.now) places.items)
        ≡ take most (sorted_by (columns_cmp columns.now) (range_with_len 0 count))) }
    ensures exact { IfOk result (λ places. length places.items ≡ most) }
{
    let all = all_places(alloc, count)?;
    // Where the values come in no order, the first of a sample leave few of all, after one pass from front to back.
    let sample = most.saturating_mul(16).max(LEAST_SAMPLE).min(count);
    let near = up_to_nth(alloc, columns, all.as_slice(), sample, most)?;
    let near = near.as_slice();
    up_to_nth(alloc, columns, near, near.len(), most)
}

/// Returns the places without those that stand after each of the first `most` of a sample, which is the front of them.
fn up_to_nth(
    alloc: Global,
    columns: &[Column<'_>],
    places: &[usize],
    sample: usize,
    most: usize,
) -> Result<Vec<usize>, AllocError>
    requires rising { IsStrictlyIncreasing places.now }
    requires some { 0 < most }
    requires within { most ≤ sample }
    requires sampled { sample ≤ length places.now }
    ensures { IfOk result (λ kept. HasFirst columns.now places.now sample most kept.items) }
{
    let last = last_place(alloc, columns, &places[..sample], most)?;
    let mut kept = Vec::with_capacity(alloc, most)?;
    for place in places {
        if compare_placed(columns, *place, last).is_le() {
            kept.push(*place)?;
        }
    }
    Ok(kept)
}

/// Returns the place that stands last among the first `most` of these.
fn last_place(
    alloc: Global,
    columns: &[Column<'_>],
    places: &[usize],
    most: usize,
) -> Result<usize, AllocError>
    requires rising { IsStrictlyIncreasing places.now }
    requires some { 0 < most }
    requires within { most ≤ length places.now }
    ensures { IfOk result (λ last. length (filter (is_up_to columns.now last) places.now) ≡ most) }
{
    let mut turned = places.to_vec(alloc)?;
    let (_, last, _) = turned
        .as_mut_slice()
        .select_nth_unstable_by(most - 1, |a, b| compare_placed(columns, *a, *b));
    Ok(*last)
}
