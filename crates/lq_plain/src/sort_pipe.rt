//! The `sort` pipe.
ghost use Rattle.std.specs.Prelude.{◌≡◌, IfOk, map};
ghost use Rattle.lq_ast.specs.PipeView.{sort_by, sorting};
ghost use Rattle.lq_ast.specs.Sorting.{field_cmp, record_cmp, sorted};

use crate::insertion::sorted_by;
use lq_ast::{SortKey, SortPipe};
use std::alloc::{AllocError, Global};
use std::cmp::Ordering;
use vl_row::{FieldList, Recs, value_order};

/// Sorts the records by the pipe's keys, in value order. The sort is stable. Then skips `offset` records and keeps at
/// most `limit` of the others.
pub fn sort(alloc: Global, pipe: &SortPipe, records: &[FieldList]) -> Result<Recs, AllocError>
    ensures { IfOk result (λ made. made ≡ sorted (sorting pipe.now) records.now) }
{
    let keys = pipe.keys.as_slice();
    let mut all = sorted_by(alloc, copies(alloc, records)?, |a, b| compare(keys, a, b))?;
    let mut kept = all.split_off(all.len().min(pipe.offset as usize))?;
    if let Some(limit) = pipe.limit {
        kept.truncate(limit as usize);
    }
    Ok(Recs::of(kept))
}

/// Compares two records by the first key in which they differ.
fn compare(keys: &[SortKey], a: &FieldList, b: &FieldList) -> Ordering
    ensures { result ≡ record_cmp (map sort_by keys.now) a.now b.now }
{
    match keys {
        [] => Ordering::Equal,
        [key, keys @ ..] => compare_by(key, a, b).then(compare(keys, a, b)),
    }
}

/// Compares two records by one key.
fn compare_by(key: &SortKey, a: &FieldList, b: &FieldList) -> Ordering
    ensures { result ≡ field_cmp (sort_by key.now) a.now b.now }
{
    let name = key.name.as_str();
    let order = value_order(a.get(name), b.get(name));
    if key.desc { order.reverse() } else { order }
}

/// Copies the records.
pub(crate) fn copies(alloc: Global, records: &[FieldList]) -> Result<Vec<FieldList>, AllocError>
    ensures { IfOk result (λ copies. copies.items ≡ records.now) }
{
    let mut copies = Vec::new(alloc);
    for record in records {
        copies.push(record.try_copy(alloc)?)?;
    }
    Ok(copies)
}
