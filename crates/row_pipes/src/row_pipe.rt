//! What a pipe makes of a record.
ghost use Rattle.std.specs.Prelude.{◌≡◌, Ok, OnOk, IfErr, decimal, length};
ghost use Rattle.lq_ast.specs.Made.{made};
ghost use Rattle.lq_ast.specs.MakingView.{making};
ghost use Rattle.lq_ast.specs.Records.{put_field};
ghost use Rattle.row_pipes.specs.Faults.{IsMakeFault};
ghost use Rattle.vl_row.specs.Field.{field_value};

use crate::extract::extract;
use crate::fault::MakeFault;
use crate::format::format;
use crate::math::math;
use crate::put::put_field;
use itoa::Buffer;
use lq_ast::RowPipe;
use std::alloc::{AllocError, Global};
use vl_row::FieldList;

/// Sets the fields of a record that a pipe makes. After a refusal the record has any fields.
pub fn make(alloc: Global, p: &RowPipe, r: &mut FieldList) -> Result<(), MakeFault>
    ensures ok { OnOk result (made (making p.now) r.old ≡ Ok r.new) }
    ensures overflow { IfErr result (IsMakeFault (making p.now) r.old) }
{
    match p {
        RowPipe::Extract { pattern, from } => {
            extract(alloc, pattern.pieces.as_slice(), from.as_str(), r)?
        }
        RowPipe::Format { pattern, name } => {
            format(alloc, pattern.pieces.as_slice(), name.as_str(), r)?
        }
        RowPipe::Len { from, name } => len(alloc, from.as_str(), name.as_str(), r)?,
        RowPipe::Math { items } => math(alloc, items.as_slice(), r)?,
    }
    Ok(())
}

/// Sets a field to the length of the value of another one in bytes.
fn len(alloc: Global, from: &str, name: &str, r: &mut FieldList) -> Result<(), AllocError>
    ensures { OnOk result (r.new ≡ put_field r.old name.now (decimal (length (field_value r.old from.now)))) }
{
    let length = r.get(from).len();
    put_field(alloc, name, Buffer::new().format(length), r)
}
