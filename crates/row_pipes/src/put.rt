ghost use Rattle.std.specs.Prelude.{◌≡◌, OnOk};
ghost use Rattle.lq_ast.specs.Records.{put_field};

use std::alloc::{AllocError, Global};
use vl_row::FieldList;

/// Gives the field of this name a value, where the name is not empty.
pub(crate) fn put_field(
    alloc: Global,
    name: &str,
    value: &str,
    r: &mut FieldList,
) -> Result<(), AllocError>
    ensures { OnOk result (r.new ≡ put_field r.old name.now value.now) }
{
    if name.is_empty() {
        return Ok(());
    }
    r.set(alloc, name, value)
}
