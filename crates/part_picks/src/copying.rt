//! Copies of picked rows.

ghost use Rattle.std.specs.Prelude.{◌≡◌, ◌++◌, IfOk, OnOk};
ghost use Rattle.part_model.specs.Filling.{rows_in_blocks};

use crate::pick::Pick;
use std::alloc::{AllocError, Global};
use vl_row::Numbered;

/// Copies of all rows.
pub fn rows_of(alloc: Global, picks: &[Pick<'_>]) -> Result<Vec<Numbered>, AllocError>
    ensures { IfOk result (λ rows. rows.items ≡ rows_in_blocks picks.now) }
{
    let mut rows = Vec::new(alloc);
    for pick in picks {
        copy_rows(alloc, pick, &mut rows)?;
    }
    Ok(rows)
}

/// Appends copies of the rows.
pub(crate) fn copy_rows(
    alloc: Global,
    pick: &Pick<'_>,
    rows: &mut Vec<Numbered>,
) -> Result<(), AllocError>
    ensures { OnOk result (rows.new.items ≡ rows.old.items ++ pick.now) }
{
    for i in 0..pick.len() {
        rows.push(pick.row(alloc, i)?)?;
    }
    Ok(())
}
