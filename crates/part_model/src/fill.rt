//! Where one block of rows ends, and the next begins.

ghost use Rattle.std.specs.Prelude.{◌≡◌, ◌<◌, ◌*◌, ◌≤◌, ◌&&◌, ◌↔◌, IfOk, IsTrue, length, nat_le};
ghost use Rattle.part_model.specs.Ends.{EndsBlock};

use crate::names::{fields_of, put_names, put_other_names};
use block_format::{MAX_CELLS, MAX_COLUMNS, MAX_ROWS};
use block_model::NumberedRef;
use std::alloc::{AllocError, Global};
use std::collections::BTreeSet;

/// How many of the rows fill the first block.
pub fn block_end(alloc: Global, rows: &[NumberedRef<'_>]) -> Result<usize, AllocError>
    requires { 0 < length rows.now }
    ensures { IfOk result (EndsBlock rows.now) }
{
    let mut last = fields_of(&rows[0]);
    if rows.len() == 1 || !are_of_one_stream(&rows[0], &rows[1]) {
        return Ok(1);
    }
    let mut names = BTreeSet::new(alloc);
    put_names(&mut names, last)?;
    for i in 1..rows.len() {
        let row = &rows[i];
        if i == MAX_ROWS {
            return Ok(i);
        }
        if !are_of_one_stream(&rows[0], row) {
            return Ok(i);
        }
        let fields = fields_of(row);
        put_other_names(&mut names, fields, last)?;
        last = fields;
        if !are_within(i + 1, names.len()) {
            return Ok(i);
        }
    }
    Ok(rows.len())
}

fn are_of_one_stream(a: &NumberedRef<'_>, b: &NumberedRef<'_>) -> bool
    ensures { IsTrue result ↔ (a.now.row.labels ≡ b.now.row.labels) }
{
    a.row.stream().is_same(b.row.stream())
}

/// Whether a block may have this many rows, at most 4,096, with this many columns.
fn are_within(rows: usize, columns: usize) -> bool
    requires { rows ≤ 4096 }
    ensures { result ≡ nat_le columns 2000 && nat_le (rows * columns) 1_048_576 }
{
    columns <= MAX_COLUMNS && rows * columns <= MAX_CELLS
}
