//! Turns tuples into records.
ghost use Rattle.std.specs.Prelude.{◌≡◌, [], IfOk, OnOk, map, zip, if◌then◌else◌};
ghost use Rattle.std.specs.List.{All};
ghost use Rattle.log_model.specs.Field.{set_all, set_field};
ghost use Rattle.lq_ast.specs.Sorting.{counted_record, tuple_record};
ghost use Rattle.lq_plain.specs.Named.{IsNamed};

use crate::tuples::hits;
use std::alloc::{AllocError, Global};
use vl_row::{FieldList, Items, Text};

/// Returns a record for each of these tuples, with the number of the records that have it if `with_hits`.
pub(crate) fn records_of(
    alloc: Global,
    names: &[Text],
    records: &[FieldList],
    tuples: &[Items<Text>],
    with_hits: bool,
) -> Result<Vec<FieldList>, AllocError>
    requires { All (IsNamed names.now) tuples.now }
    ensures { IfOk result (λ made. made.items
        ≡ map (if with_hits then counted_record names.now records.now else tuple_record names.now) tuples.now) }
{
    let mut made = Vec::new(alloc);
    for tuple in tuples {
        let mut fields = tuple_record(alloc, names, tuple.as_slice())?;
        if with_hits {
            let hits = hits(names, records, tuple.as_slice()).to_string(alloc)?;
            fields.set(alloc, "hits", hits.as_str())?;
        }
        made.push(fields)?;
    }
    Ok(made)
}

/// Returns the record of a tuple.
fn tuple_record(alloc: Global, names: &[Text], tuple: &[Text]) -> Result<FieldList, AllocError>
    requires { IsNamed names.now tuple.now }
    ensures { IfOk result (λ made. made ≡ tuple_record names.now tuple.now) }
{
    let mut made = FieldList::new(alloc);
    set_all(alloc, &mut made, names, tuple)?;
    Ok(made)
}

/// Sets the fields of these names, from left to right.
fn set_all(
    alloc: Global,
    fields: &mut FieldList,
    names: &[Text],
    tuple: &[Text],
) -> Result<(), AllocError>
    requires { IsNamed names.now tuple.now }
    ensures { OnOk result (fields.new ≡ set_all fields.old (zip names.now tuple.now)) }
{
    match names {
        [] => Ok(()),
        [name, names @ ..] => match tuple {
            [] => Ok(()),
            [value, tuple @ ..] => {
                set(alloc, fields, name.as_str(), value.as_str())?;
                set_all(alloc, fields, names, tuple)
            }
        },
    }
}

/// Sets a field. If the name is empty, so is the value, and nothing has to be removed.
fn set(alloc: Global, fields: &mut FieldList, name: &str, value: &str) -> Result<(), AllocError>
    requires { name.now ≡ [] → value.now ≡ [] }
    ensures { OnOk result (fields.new ≡ set_field fields.old name.now value.now) }
{
    // A field list has no field with an empty name.
    let _ = fields.as_slice();
    if name.is_empty() {
        return Ok(());
    }
    fields.set(alloc, name, value)
}
