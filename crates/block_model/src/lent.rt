//! Rows that are lent.

ghost use Rattle.std.specs.Prelude.{◌≡◌, IfOk};

use std::alloc::{AllocError, Global};
use std::marker::Model;
use vl_row::{Numbered, Row};

/// A row that is lent, with its number: that of its batch, and its place there, counted from 0.
///
/// A contract sees it as the numbered row.
#[derive(Drop)]
pub struct NumberedRef<'a> {
    pub batch: u64,
    pub place: u32,
    pub row: &'a Row,
}

impl<'a> Model for NumberedRef<'a> {
    ghost use Rattle.log_model.specs.History.{Numbered as NumberedRow};

    ghost Value = { NumberedRow };

    ghost view = { λ n. record { batch = n.batch; place = n.place; row = n.row.now } };
}

/// Lends the rows.
pub fn lend(alloc: Global, rows: &[Numbered]) -> Result<Vec<NumberedRef<'_>>, AllocError>
    ensures { IfOk result (λ lent. lent.items ≡ rows.now) }
{
    let mut lent = Vec::with_capacity(alloc, rows.len())?;
    for numbered in rows {
        lent.push(lent_row(numbered))?;
    }
    Ok(lent)
}

/// Lends a row.
pub fn lent_row(numbered: &Numbered) -> NumberedRef<'_>
    ensures { result ≡ numbered.now }
{
    NumberedRef {
        batch: numbered.batch,
        place: numbered.place,
        row: &numbered.row,
    }
}
