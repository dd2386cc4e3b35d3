//! The tuples of the values of some fields in several records.
ghost use Rattle.std.specs.Prelude.{◌≡◌, IfOk, map};
ghost use Rattle.std.specs.List.{All, dedup};
ghost use Rattle.std.specs.Ordering.{is_eq};
ghost use Rattle.lq_ast.specs.Sorting.{hits, tuples};
ghost use Rattle.lq_ast.specs.Tuples.{distinct_by, tuple_cmp, tuple_of};
ghost use Rattle.lq_plain.specs.Named.{IsNamed};

use crate::insertion::sorted_by;
use crate::tuple::{has_tuple, is_wholly_empty, tuple_of, tuple_order};
use std::alloc::{AllocError, Global};
use std::cmp::Ordering;
use vl_row::{FieldList, Items, Text};

/// Returns the distinct tuples of the records in tuple order, without the tuple of only empty values.
pub(crate) fn tuples(
    alloc: Global,
    names: &[Text],
    records: &[FieldList],
) -> Result<Vec<Items<Text>>, AllocError>
    ensures tuples { IfOk result (λ made. made.items ≡ tuples names.now records.now) }
    ensures named { IfOk result (λ made. All (IsNamed names.now) made.items) }
{
    let mut tuples = distinct(alloc, all_tuples(alloc, names, records)?)?;
    tuples.retain(|tuple| !is_wholly_empty(tuple.as_slice()));
    Ok(tuples)
}

/// Returns the number of records with this tuple.
pub(crate) fn hits(names: &[Text], records: &[FieldList], tuple: &[Text]) -> usize
    ensures { result ≡ hits names.now records.now tuple.now }
{
    records
        .iter()
        .filter(|fields| has_tuple(names, fields, tuple))
        .count()
}

/// Returns the tuple of each record.
fn all_tuples(
    alloc: Global,
    names: &[Text],
    records: &[FieldList],
) -> Result<Vec<Items<Text>>, AllocError>
    ensures tuples { IfOk result (λ made. made.items ≡ map (tuple_of names.now) records.now) }
    ensures named { IfOk result (λ made. All (IsNamed names.now) made.items) }
{
    let mut tuples = Vec::new(alloc);
    for fields in records {
        tuples.push(tuple_of(alloc, names, fields)?)?;
    }
    Ok(tuples)
}

/// Sorts tuples and removes duplicates.
pub(crate) fn distinct(
    alloc: Global,
    tuples: Vec<Items<Text>>,
) -> Result<Vec<Items<Text>>, AllocError>
    ensures { IfOk result (λ made. made.items ≡ distinct_by tuple_cmp tuples.items) }
{
    let mut made = sorted_by(
        alloc,
        tuples,
        |a, b| tuple_order(a.as_slice(), b.as_slice()),
    )?;
    made.dedup_by(|a, b| tuple_order(a.as_slice(), b.as_slice()) == Ordering::Equal);
    Ok(made)
}
