//! Rows of columns.

ghost use Rattle.std.specs.Prelude.{◌≡◌, ◌≤ℤ◌, IfOk, map, pos, unsigned_abs};
ghost use Rattle.log_model.specs.Row.{IsRow};
ghost use Rattle.block_model.specs.Columns.{row_of};

use crate::keys::Key;
use std::alloc::{AllocError, Global};
use vl_row::{FieldList, Numbered, Row, RowFault, Stream, Text};

/// The row of this stream and this key that has these fields.
pub fn numbered_row(
    alloc: Global,
    stream: &Stream,
    key: Key,
    fields: FieldList,
) -> Result<Numbered, AllocError>
    requires time { pos 0 ≤ℤ key.time }
    requires row { IsRow (row_of stream.now key fields).row }
    ensures { IfOk result (λ numbered. numbered ≡ row_of stream.now key fields) }
{
    let names = label_names(alloc, stream)?;
    match Row::try_new(alloc, key.time, names.as_slice(), fields) {
        Ok(row) => Ok(Numbered {
            batch: key.batch,
            place: key.place,
            row,
        }),
        Err((fault, _)) => match fault {
            RowFault::Memory => Err(AllocError),
            _ => unreachable!(),
        },
    }
}

fn label_names(alloc: Global, stream: &Stream) -> Result<Vec<Text>, AllocError>
    ensures { IfOk result (λ names. names.items ≡ map (λ label. label.0) stream.now) }
{
    let mut names = Vec::with_capacity(alloc, stream.len())?;
    for label in stream.as_slice() {
        names.push(Text::try_of(alloc, label.name())?)?;
    }
    Ok(names)
}
