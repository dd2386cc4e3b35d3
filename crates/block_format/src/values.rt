//! Values as the fields of rows.

ghost use Rattle.std.specs.Prelude.{◌≡◌, ◌<◌, OnOk, length};
ghost use Rattle.std.specs.Fmt.{signed_decimal};
ghost use Rattle.lent_row.specs.Cells.{value_text};
ghost use Rattle.log_model.specs.Field.{set_field};

use itoa::Buffer;
use lent_row::Value;
use std::alloc::{AllocError, Global};
use vl_row::FieldList;

/// Gives the field of this name the text that is lent.
pub fn set_value(
    alloc: Global,
    fields: &mut FieldList,
    name: &str,
    value: Value<'_>,
) -> Result<(), AllocError>
    requires { 0 < length name.now }
    ensures { OnOk result (fields.new ≡ set_field fields.old name.now (value_text value.entry)) }
{
    match value {
        Value::Str(text) => fields.set(alloc, name, text),
        Value::Int(integer) => set_integer(alloc, fields, name, integer),
    }
}

/// The same, of the decimal text of an integer, which is made in place.
fn set_integer(
    alloc: Global,
    fields: &mut FieldList,
    name: &str,
    integer: i64,
) -> Result<(), AllocError>
    requires { 0 < length name.now }
    ensures { OnOk result (fields.new ≡ set_field fields.old name.now (signed_decimal integer)) }
{
    let mut buffer = Buffer::new();
    fields.set(alloc, name, buffer.format(integer))
}
