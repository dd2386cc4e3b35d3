//! Sets fields.
ghost use Rattle.std.specs.Prelude.{◌≡◌, OnOk};
ghost use Rattle.lq_ast.specs.Records.{put_field};

use std::alloc::{AllocError, Global};
use vl_row::FieldList;

/// Sets a field, unless its name is empty.
pub(crate) fn put(
    alloc: Global,
    fields: &mut FieldList,
    name: &str,
    value: &str,
) -> Result<(), AllocError>
    ensures { OnOk result (fields.new ≡ put_field fields.old name.now value.now) }
{
    if name.is_empty() {
        return Ok(());
    }
    fields.set(alloc, name, value)
}
