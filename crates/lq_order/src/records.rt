//! The records of groups.
ghost use Rattle.std.specs.Prelude.{◌≡◌, IfOk, map};
ghost use Rattle.lq_tuple.specs.Groups.{keyed_group};
ghost use Rattle.lq_order.specs.Groups.{counted_group};

use crate::group::group_record;
use lq_tuple::KeyedGroup;
use std::alloc::{AllocError, Global};
use vl_row::{Recs, Text};

/// Returns a record for each of these groups: its tuple, and its number where that is wanted.
pub(crate) fn records_of(
    alloc: Global,
    names: &[Text],
    counted: bool,
    groups: &[KeyedGroup<'_, u64>],
) -> Result<Recs, AllocError>
    ensures { IfOk result (λ made. made ≡ map (counted_group names.now counted) (map keyed_group groups.now)) }
{
    let texts = texts_of(alloc, names)?;
    let mut records = Vec::with_capacity(alloc, groups.len())?;
    for keyed in groups {
        records.push(group_record(alloc, texts.as_slice(), counted, keyed.group)?)?;
    }
    Ok(Recs::of(records))
}

fn texts_of<'a>(alloc: Global, names: &'a [Text]) -> Result<Vec<&'a str>, AllocError>
    ensures { IfOk result (λ texts. map (λ text. text.now) texts.items ≡ names.entry.now) }
{
    let mut texts = Vec::with_capacity(alloc, names.len())?;
    for name in names {
        texts.push(name.as_str())?;
    }
    Ok(texts)
}
