//! The `uniq` and `top` pipes, which work on tuples of values.
ghost use Rattle.std.specs.Prelude.{◌≡◌, IfOk};
ghost use Rattle.lq_ast.specs.PipeView.{distinct, ranking};
ghost use Rattle.lq_ast.specs.Sorting.{top, uniq};

use crate::insertion::sorted_by;
use crate::tuple_records::records_of;
use crate::tuples::{hits, tuples};
use lq_ast::{TopPipe, UniqPipe};
use std::alloc::{AllocError, Global};
use vl_row::{FieldList, Recs};

/// Returns one record for each distinct tuple of the values of the pipe's fields, in tuple order, without the tuple of
/// only empty values. With `hits`, a record also has the number of its tuple's records. Keeps at most `limit` records.
pub fn uniq(alloc: Global, pipe: &UniqPipe, records: &[FieldList]) -> Result<Recs, AllocError>
    ensures { IfOk result (λ made. made ≡ uniq (distinct pipe.now) records.now) }
{
    let names = pipe.names.as_slice();
    let tuples = tuples(alloc, names, records)?;
    let mut made = records_of(alloc, names, records, tuples.as_slice(), pipe.hits)?;
    if let Some(limit) = pipe.limit {
        made.truncate(limit as usize);
    }
    Ok(Recs::of(made))
}

/// Returns the `n` most frequent tuples of the values of the pipe's fields, each with its number of records: the most
/// frequent first, and those with the same number in tuple order.
pub fn top(alloc: Global, pipe: &TopPipe, records: &[FieldList]) -> Result<Recs, AllocError>
    ensures { IfOk result (λ made. made ≡ top (ranking pipe.now) records.now) }
{
    let names = pipe.names.as_slice();
    let tuples = tuples(alloc, names, records)?;
    let ranked = sorted_by(alloc, tuples, |a, b| {
        hits(names, records, b.as_slice()).cmp(&hits(names, records, a.as_slice()))
    })?;
    let mut made = records_of(alloc, names, records, ranked.as_slice(), true)?;
    made.truncate(pipe.n as usize);
    Ok(Recs::of(made))
}
