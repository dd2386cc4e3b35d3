//! Records of groups.
ghost use Rattle.std.specs.Prelude.{◌≡◌, IfOk, map};
ghost use Rattle.lq_order.specs.Groups.{counted_group};

use itoa::Buffer;
use lq_tuple::{Group, tuple_record};
use std::alloc::{AllocError, Global};
use vl_row::FieldList;

/// Returns the record of a group's tuple, with the number of its records where that is wanted.
pub(crate) fn group_record(
    alloc: Global,
    names: &[&str],
    counted: bool,
    group: &Group<u64>,
) -> Result<FieldList, AllocError>
    ensures { IfOk result (λ made. made ≡ counted_group (map (λ name. name.now) names.now) counted group.now) }
{
    let mut made = tuple_record(alloc, names, group.tuple.as_slice())?;
    if counted {
        let mut number = Buffer::new();
        made.set(alloc, "hits", number.format(group.kept))?;
    }
    Ok(made)
}
