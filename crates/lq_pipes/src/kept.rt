//! The pipes that keep some of the records: `limit`, `offset` and `filter`.
ghost use Rattle.std.specs.Prelude.{◌≡◌, IfOk, drop, filter, take};
ghost use Rattle.lq_ast.specs.Holds.{record_holds};
ghost use Rattle.lq_filter.specs.Inner.{inner_condition};

use lq_filter::Inner;
use std::alloc::{AllocError, Global};
use vl_row::Recs;

/// Keeps the first n records.
pub(crate) fn limit(most: u64, r: Recs) -> Recs
    ensures { result ≡ take most r }
{
    let mut records = r.into_vec();
    records.truncate(most as usize);
    Recs::of(records)
}

/// Leaves out the first n records.
pub(crate) fn offset(first: u64, r: Recs) -> Recs
    ensures { result ≡ drop first r }
{
    let mut records = r.into_vec();
    let first = records.len().min(first as usize);
    drop(records.drain(..first));
    Recs::of(records)
}

/// Keeps the records for which the filter holds.
pub(crate) fn keep(alloc: Global, asked: &Inner, r: Recs) -> Result<Recs, AllocError>
    ensures { IfOk result (λ kept. kept ≡ filter (record_holds (inner_condition asked.entry.now)) r) }
{
    let mut scan = asked.scan(alloc);
    let mut records = r.into_vec();
    let mut kept = 0;
    for i in 0..records.len() {
        if scan.holds(&records[i])? {
            records.swap(kept, i);
            kept += 1;
        }
    }
    records.truncate(kept);
    Ok(Recs::of(records))
}
