//! The `sort` pipe.
ghost use Rattle.std.specs.Prelude.{◌≡◌, ◌<◌, ◌≤◌, IfOk, IfSome, drop, length, map, slice_index_or, take, []};
ghost use Rattle.lq_ast.specs.PipeView.{sort_by, sorting};
ghost use Rattle.lq_ast.specs.Sorting.{at_most, sorted};
ghost use Rattle.lq_ast.specs.Tuples.{sorted_by};
ghost use Rattle.lq_order.specs.Column.{columns_cmp};
ghost use Rattle.lq_order.specs.Places.{ArePlaces, IsWanted, places_in_order, sorted_places};

use crate::column::{Column, columns, compare};
use crate::first::{all_places, first_places};
use crate::kept::kept;
use lq_ast::{SortKey, SortPipe};
use lq_tuple::HashSeed;
use std::alloc::{AllocError, Global};
use std::mem;
use vl_row::{FieldList, Recs};

/// The first records are selected by their keys where they are less than such a part of all. Where the values are a few
/// texts, more of them are found faster by the ranks of all.
const SMALL_PART: u64 = 32;

/// Returns the records in the order of the pipe's keys, by value order, and those that are equal in it as they came.
/// Then `offset` of them are left out, and `limit` of the others are kept. The seed of the table of values is the fixed
/// one.
pub fn sort_recs(alloc: Global, p: &SortPipe, r: Recs) -> Result<Recs, AllocError>
    ensures { IfOk result (λ records. records ≡ sorted (sorting p.now) r) }
{
    sort_recs_seeded(alloc, HashSeed::fixed(), p, r)
}

/// Returns the same, with this seed of the table of values.
pub fn sort_recs_seeded(
    alloc: Global,
    seed: HashSeed,
    p: &SortPipe,
    r: Recs,
) -> Result<Recs, AllocError>
    ensures { IfOk result (λ records. records ≡ sorted (sorting p.now) r) }
{
    let records = r.into_vec();
    let places = sorted_places_seeded(alloc, seed, p, records.as_slice())?;
    moved(alloc, records, places.as_slice())
}

/// Returns where the records stand that the pipe keeps, counted from 0, in the pipe's order. The seed of the table of
/// values is the fixed one.
pub fn sorted_places(
    alloc: Global,
    p: &SortPipe,
    records: &[FieldList],
) -> Result<Vec<usize>, AllocError>
    ensures sorted { IfOk result (λ places. places.items ≡ sorted_places (sorting p.now) records.now) }
    ensures apart { IfOk result (λ places. ArePlaces (length records.now) places.items) }
{
    sorted_places_seeded(alloc, HashSeed::fixed(), p, records)
}

/// Returns the same, with this seed of the table of values.
pub fn sorted_places_seeded(
    alloc: Global,
    seed: HashSeed,
    p: &SortPipe,
    records: &[FieldList],
) -> Result<Vec<usize>, AllocError>
    ensures sorted { IfOk result (λ places. places.items ≡ sorted_places (sorting p.now) records.now) }
    ensures apart { IfOk result (λ places. ArePlaces (length records.now) places.items) }
{
    let places = enough_in_order(alloc, seed, p, records)?;
    kept(places.as_slice(), p.offset, p.limit).to_vec(alloc)
}

/// Places in the pipe's order, of which it keeps the same as of those of all records.
fn enough_in_order(
    alloc: Global,
    seed: HashSeed,
    p: &SortPipe,
    records: &[FieldList],
) -> Result<Vec<usize>, AllocError>
    ensures { IfOk result (λ places. at_most p.now.limit (drop p.now.offset places.items)
        ≡ at_most p.now.limit (drop p.now.offset (places_in_order (sorting p.now).keys records.now))) }
{
    match wanted(p.offset, p.limit, records.len()) {
        Some(most) => first_in_order(alloc, p.keys.as_slice(), records, most),
        None => all_in_order(alloc, seed, p.keys.as_slice(), records),
    }
}

/// Returns how many of this many records are to be put in order, where that is a small part of them. It is one at
/// least.
fn wanted(offset: u64, limit: Option<u64>, count: usize) -> Option<usize>
    ensures { IfSome result (IsWanted offset limit count) }
{
    let most = offset.checked_add(limit?)?.max(1);
    if most < count as u64 / SMALL_PART {
        Some(most as usize)
    } else {
        None
    }
}

/// Returns where the records stand in the order of the keys.
fn all_in_order(
    alloc: Global,
    seed: HashSeed,
    keys: &[SortKey],
    records: &[FieldList],
) -> Result<Vec<usize>, AllocError>
    ensures { IfOk result (λ places. places.items ≡ places_in_order (map sort_by keys.now) records.now) }
{
    let columns = columns(alloc, keys, records, Some(seed))?;
    let places = all_places(alloc, records.len())?;
    in_order(columns.as_slice(), places)
}

/// Returns where the first `most` of the records stand in the order of the keys. Only these are sorted.
fn first_in_order(
    alloc: Global,
    keys: &[SortKey],
    records: &[FieldList],
    most: usize,
) -> Result<Vec<usize>, AllocError>
    requires some { 0 < most }
    requires within { most ≤ length records.now }
    ensures { IfOk result (λ places. places.items ≡ take most (places_in_order (map sort_by keys.now) records.now)) }
{
    let columns = columns(alloc, keys, records, None)?;
    let places = first_places(alloc, columns.as_slice(), records.len(), most)?;
    in_order(columns.as_slice(), places)
}

/// Returns the places by the columns. Those that are equal in these stand as they came.
fn in_order(columns: &[Column<'_>], mut places: Vec<usize>) -> Result<Vec<usize>, AllocError>
    ensures { IfOk result (λ sorted. sorted.items ≡ sorted_by (columns_cmp columns.now) places.items) }
{
    match columns {
        [column] => places.sort_by(|a, b| column.compare(*a, *b))?,
        _ => places.sort_by(|a, b| compare(columns, *a, *b))?,
    }
    Ok(places)
}

/// Returns the records of these places.
fn moved(alloc: Global, mut records: Vec<FieldList>, places: &[usize]) -> Result<Recs, AllocError>
    requires { ArePlaces (length records.items) places.now }
    ensures { IfOk result (λ moved. moved ≡ map (λ place. slice_index_or records.items place []) places.now) }
{
    let mut moved = Vec::with_capacity(alloc, places.len())?;
    for place in places {
        let record = mem::replace(&mut records[*place], FieldList::new(alloc));
        moved.push(record)?;
    }
    Ok(Recs::of(moved))
}
