//! The pipes that set fields of each record: `extract`, `format`, `len` and `math`.
ghost use Rattle.std.specs.Prelude.{◌≡◌, ◌++◌, IfOk, OnOk, map};
ghost use Rattle.lq_ast.specs.Grouping.{all};
ghost use Rattle.lq_ast.specs.Made.{formatted, made, piece_text};
ghost use Rattle.lq_ast.specs.MakingView.{making, pattern_piece};
ghost use Rattle.lq_plain.specs.Outcome.{prepend};

use crate::extract::extract_fields;
use crate::functions::decimal;
use crate::math::math_fields;
use crate::put::put;
use lq_ast::{Piece, RowPipe};
use std::alloc::{AllocError, Global};
use vl_row::{FieldList, Recs, Text};

/// Returns the records with their new fields. If a number is not a 64-bit integer, returns the first such name of the
/// first such record.
pub fn make(
    alloc: Global,
    pipe: &RowPipe,
    records: &[FieldList],
) -> Result<Result<Recs, Text>, AllocError>
    ensures { IfOk result (λ answer. answer ≡ all (map (made (making pipe.now)) records.now)) }
{
    made_records(alloc, pipe, records, Vec::new(alloc))
}

/// Returns the records in `before`, and then the others with their new fields.
fn made_records(
    alloc: Global,
    pipe: &RowPipe,
    records: &[FieldList],
    before: Vec<FieldList>,
) -> Result<Result<Recs, Text>, AllocError>
    ensures { IfOk result (λ answer. answer
        ≡ prepend before.items (all (map (made (making pipe.now)) records.now))) }
{
    let mut made = before;
    match records {
        [] => Ok(Ok(Recs::of(made))),
        [record, others @ ..] => match made_record(alloc, pipe, record)? {
            Err(name) => Ok(Err(name)),
            Ok(fields) => {
                made.push(fields)?;
                made_records(alloc, pipe, others, made)
            }
        },
    }
}

/// Returns a record with its new fields.
fn made_record(
    alloc: Global,
    pipe: &RowPipe,
    record: &FieldList,
) -> Result<Result<FieldList, Text>, AllocError>
    ensures { IfOk result (λ answer. answer ≡ made (making pipe.now) record.now) }
{
    let mut made = record.try_copy(alloc)?;
    match pipe {
        RowPipe::Extract { pattern, from } => {
            let value = record.get(from.as_str());
            extract_fields(alloc, &mut made, pattern.pieces.as_slice(), Some(value))?;
        }
        RowPipe::Format { pattern, name } => {
            let mut text = Text::new();
            push_formatted(alloc, pattern.pieces.as_slice(), record, &mut text)?;
            put(alloc, &mut made, name.as_str(), text.as_str())?;
        }
        RowPipe::Len { from, name } => {
            let length = decimal(alloc, record.get(from.as_str()).len())?;
            put(alloc, &mut made, name.as_str(), length.as_str())?;
        }
        RowPipe::Math { items } => return math_fields(alloc, items.as_slice(), made),
    }
    Ok(Ok(made))
}

/// Appends the texts of the pieces, and the values of the fields that they name.
fn push_formatted(
    alloc: Global,
    pieces: &[Piece],
    fields: &FieldList,
    out: &mut Text,
) -> Result<(), AllocError>
    ensures { OnOk result (out.new ≡ out.old ++ formatted (map pattern_piece pieces.now) fields.now) }
{
    match pieces {
        [] => Ok(()),
        [piece, others @ ..] => {
            out.push_str(alloc, piece_text(piece, fields))?;
            push_formatted(alloc, others, fields, out)
        }
    }
}

fn piece_text<'t>(piece: &'t Piece, fields: &'t FieldList) -> &'t str
    ensures { result.now ≡ piece_text fields.entry.now (pattern_piece piece.entry.now) }
{
    match piece {
        Piece::Plain(text) => text.as_str(),
        Piece::Name(name) => fields.get(name.as_str()),
    }
}
