//! The tuple of the values of some fields in one record.
ghost use Rattle.std.specs.Prelude.{◌≡◌, IfOk};
ghost use Rattle.std.specs.Ordering.{is_eq};
ghost use Rattle.lq_ast.specs.Tuples.{is_wholly_empty, tuple_cmp, tuple_of};
ghost use Rattle.lq_plain.specs.Named.{IsNamed};

use std::alloc::{AllocError, Global};
use std::cmp::Ordering;
use vl_row::{FieldList, Items, Text, value_order};

/// Returns the values of these fields.
pub(crate) fn tuple_of(
    alloc: Global,
    names: &[Text],
    fields: &FieldList,
) -> Result<Items<Text>, AllocError>
    ensures tuple { IfOk result (λ tuple. tuple ≡ tuple_of names.now fields.now) }
    ensures named { IfOk result (λ tuple. IsNamed names.now tuple) }
{
    // A field list has no field with an empty name.
    let _ = fields.as_slice();
    let mut tuple = Vec::new(alloc);
    for name in names {
        tuple.push(Text::try_of(alloc, fields.get(name.as_str()))?)?;
    }
    Ok(Items::of(tuple))
}

/// Compares two tuples by the first component in which they differ.
pub(crate) fn tuple_order(a: &[Text], b: &[Text]) -> Ordering
    ensures { result ≡ tuple_cmp a.now b.now }
{
    match a {
        [] if b.is_empty() => Ordering::Equal,
        [] => Ordering::Less,
        [x, xs @ ..] => match b {
            [] => Ordering::Greater,
            [y, ys @ ..] => value_order(x.as_str(), y.as_str()).then(tuple_order(xs, ys)),
        },
    }
}

/// Returns whether all values are empty.
pub(crate) fn is_wholly_empty(tuple: &[Text]) -> bool
    ensures { result ≡ is_wholly_empty tuple.now }
{
    match tuple {
        [] => true,
        [value, others @ ..] => value.as_str().is_empty() && is_wholly_empty(others),
    }
}

/// Returns whether the record has this tuple.
pub(crate) fn has_tuple(names: &[Text], fields: &FieldList, tuple: &[Text]) -> bool
    ensures { result ≡ is_eq (tuple_cmp (tuple_of names.now fields.now) tuple.now) }
{
    match names {
        [] => tuple.is_empty(),
        [name, names @ ..] => match tuple {
            [] => false,
            [value, tuple @ ..] => {
                let order = value_order(fields.get(name.as_str()), value.as_str());
                order == Ordering::Equal && has_tuple(names, fields, tuple)
            }
        },
    }
}
