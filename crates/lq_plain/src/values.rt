//! The values of some fields in several records.
ghost use Rattle.std.specs.Prelude.{◌≡◌, ◌++◌, IfOk, OnOk, map};
ghost use Rattle.log_model.specs.Field.{field_value};
ghost use Rattle.log_model.specs.Order.{value_cmp};
ghost use Rattle.lq_ast.specs.Statistics.{filled, values};
ghost use Rattle.lq_ast.specs.Tuples.{distinct_by, sorted_by};

use crate::insertion::sorted_by;
use std::alloc::{AllocError, Global};
use std::cmp::Ordering;
use vl_row::{FieldList, Text, value_order};

/// Returns all values of the fields.
pub(crate) fn values(
    alloc: Global,
    names: &[Text],
    records: &[FieldList],
) -> Result<Vec<Text>, AllocError>
    ensures { IfOk result (λ made. made.items ≡ values names.now records.now) }
{
    let mut made = Vec::new(alloc);
    for name in names {
        push_values(alloc, &mut made, name.as_str(), records)?;
    }
    Ok(made)
}

fn push_values(
    alloc: Global,
    made: &mut Vec<Text>,
    name: &str,
    records: &[FieldList],
) -> Result<(), AllocError>
    ensures { OnOk result (made.new.items ≡ made.old.items ++ map (λ r. field_value r name.now) records.now) }
{
    for fields in records {
        made.push(Text::try_of(alloc, fields.get(name))?)?;
    }
    Ok(())
}

/// Returns the values of the fields that are not empty.
pub(crate) fn non_empty_values(
    alloc: Global,
    names: &[Text],
    records: &[FieldList],
) -> Result<Vec<Text>, AllocError>
    ensures { IfOk result (λ made. made.items ≡ filled names.now records.now) }
{
    let mut made = values(alloc, names, records)?;
    made.retain(|value| !value.as_str().is_empty());
    Ok(made)
}

/// Sorts values in value order.
pub(crate) fn in_order(alloc: Global, values: Vec<Text>) -> Result<Vec<Text>, AllocError>
    ensures { IfOk result (λ made. made.items ≡ sorted_by value_cmp values.items) }
{
    sorted_by(alloc, values, |a, b| value_order(a.as_str(), b.as_str()))
}

/// Sorts values in value order and removes duplicates.
pub(crate) fn distinct(alloc: Global, values: Vec<Text>) -> Result<Vec<Text>, AllocError>
    ensures { IfOk result (λ made. made.items ≡ distinct_by value_cmp values.items) }
{
    let mut made = in_order(alloc, values)?;
    made.dedup_by(|a, b| value_order(a.as_str(), b.as_str()) == Ordering::Equal);
    Ok(made)
}
