//! The names of the fields of rows, while rows are added.

ghost use Rattle.std.specs.Prelude.{◌≡◌, IfOk, IsTrue, OnOk, bytes_eq, map};
ghost use Rattle.std.specs.BTreeSet.{keys};
ghost use Rattle.log_model.specs.Row.{IsRow};
ghost use Rattle.block_model.specs.Columns.{names_in, put_names};

use block_model::NumberedRef;
use std::alloc::AllocError;
use std::collections::BTreeSet;
use vl_row::Field;

/// The fields of a row, which keeps the rules of rows.
pub(crate) fn fields_of<'a>(numbered: &NumberedRef<'a>) -> &'a [Field]
    ensures fields { result.now ≡ numbered.now.row.fields }
    ensures rules { IsRow numbered.now.row }
{
    let row = numbered.row;
    row.fields().as_slice()
}

/// Whether fields have the names of the others, one after another.
fn have_same_names(fields: &[Field], others: &[Field]) -> bool
    ensures { IsTrue result → names_in fields.now ≡ names_in others.now }
{
    if fields.len() != others.len() {
        return false;
    }
    for i in 0..fields.len() {
        if !is_named_as(&fields[i], &others[i]) {
            return false;
        }
    }
    true
}

fn is_named_as(field: &Field, other: &Field) -> bool
    ensures { result ≡ bytes_eq field.now.0 other.now.0 }
{
    field.name() == other.name()
}

/// Puts the names of some fields to the others.
pub(crate) fn put_names<'a>(
    names: &mut BTreeSet<&'a str>,
    fields: &'a [Field],
) -> Result<(), AllocError>
    ensures { OnOk result (map (λ t. t.now) (keys names.new)
        ≡ put_names (map (λ t. t.now) (keys names.old)) fields.now) }
{
    for field in fields {
        names.insert(name_of(field))?;
    }
    Ok(())
}

/// The same, where the names of the last fields were put before.
pub(crate) fn put_other_names<'a>(
    names: &mut BTreeSet<&'a str>,
    fields: &'a [Field],
    last: &'a [Field],
) -> Result<(), AllocError>
    requires { put_names (map (λ t. t.now) (keys names.old)) last.now ≡ map (λ t. t.now) (keys names.old) }
    ensures { OnOk result (map (λ t. t.now) (keys names.new)
        ≡ put_names (map (λ t. t.now) (keys names.old)) fields.now) }
{
    if have_same_names(fields, last) {
        return Ok(());
    }
    put_names(names, fields)
}

fn name_of(field: &Field) -> &str
    ensures { result.now ≡ field.now.0 }
{
    field.name.as_str()
}
