//! Masks of columns, beside a plain comparison.

use col_codec::IntColumn;
use std::alloc::{AllocError, Global};

/// Integers at the ends of what lanes hold.
const EDGES: [i64; 9] = [
    0,
    255,
    256,
    65_535,
    65_536,
    4_294_967_295,
    4_294_967_296,
    i64::MIN,
    i64::MAX,
];

/// The most integers of a column.
const MOST: usize = 130;

/// Whether each mask of a column of edges from `least` to `most` is that of a plain comparison, for columns of each
/// length, and for each two edges as the bounds.
pub fn answer(alloc: Global, least: i64, most: i64) -> Result<String, AllocError> {
    let edges = edges(alloc)?;
    let within = within(alloc, edges.as_slice(), least, most)?;
    for len in 0..=MOST {
        let column = column_of(alloc, within.as_slice(), len)?;
        if !are_alike(alloc, &column, edges.as_slice())? {
            return format!(in alloc; "unlike at {len} integers");
        }
    }
    format!(in alloc; "alike with {} edges", within.len())
}

/// The edges, each with the integers beside it.
fn edges(alloc: Global) -> Result<Vec<i64>, AllocError> {
    let mut edges = Vec::new(alloc);
    for edge in EDGES {
        edges.push(edge.saturating_sub(1))?;
        edges.push(edge)?;
        edges.push(edge.saturating_add(1))?;
    }
    Ok(edges)
}

/// Those of the integers that lie between these two.
fn within(alloc: Global, ints: &[i64], least: i64, most: i64) -> Result<Vec<i64>, AllocError> {
    let mut within = Vec::new(alloc);
    for int in ints {
        if least <= *int && *int <= most {
            within.push(*int)?;
        }
    }
    Ok(within)
}

/// A column of so many integers, which are these over and over.
fn column_of(alloc: Global, ints: &[i64], len: usize) -> Result<IntColumn, AllocError> {
    let mut values = Vec::new(alloc);
    for _ in 0..len {
        let place = values.len().checked_rem(ints.len()).unwrap_or(0);
        values.push(ints.get(place).copied().unwrap_or(0))?;
    }
    IntColumn::try_of(alloc, values.as_slice())
}

/// Whether the mask between each two of the bounds is that of a plain comparison.
fn are_alike(alloc: Global, column: &IntColumn, bounds: &[i64]) -> Result<bool, AllocError> {
    for low in bounds {
        if !are_alike_from(alloc, column, *low, bounds)? {
            return Ok(false);
        }
    }
    Ok(true)
}

fn are_alike_from(
    alloc: Global,
    column: &IntColumn,
    low: i64,
    bounds: &[i64],
) -> Result<bool, AllocError> {
    for high in bounds {
        if !is_alike(alloc, column, low, *high)? {
            return Ok(false);
        }
    }
    Ok(true)
}

/// Whether the mask is that of a plain comparison. What the marks were before is put to the test too.
fn is_alike(alloc: Global, column: &IntColumn, low: i64, high: i64) -> Result<bool, AllocError> {
    let mut marks = vec![in alloc; true; column.len()]?;
    column.mask(low, high, marks.as_mut_slice());
    Ok(is_plain(column, low, high, marks.as_slice()))
}

fn is_plain(column: &IntColumn, low: i64, high: i64, marks: &[bool]) -> bool {
    for i in 0..column.len() {
        let int = column.get(i);
        if marks.get(i).copied() != Some(low <= int && int <= high) {
            return false;
        }
    }
    true
}
