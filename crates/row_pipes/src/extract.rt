//! The pipe `extract`.
ghost use Rattle.std.specs.Prelude.{◌≡◌, [], Some, OnOk, fold, map, unwrap_or};
ghost use Rattle.lq_ast.specs.Made.{extract_fields, extracted, left_after, part_before, put_extracted, split_once};
ghost use Rattle.lq_ast.specs.MakingView.{pattern_piece};

use crate::put::put_field;
use lq_ast::Piece;
use std::alloc::{AllocError, Global};
use vl_row::{FieldList, Text};

/// Sets each name of a pattern to what stands in its place in the value of a field. The value is copied first, since
/// the pattern may set the field itself.
pub(crate) fn extract(
    alloc: Global,
    pieces: &[Piece],
    from: &str,
    r: &mut FieldList,
) -> Result<(), AllocError>
    ensures { OnOk result (r.new ≡ extract_fields (map pattern_piece pieces.now) from.now r.old) }
{
    let value = Text::try_of(alloc, r.get(from))?;
    extract_from(alloc, pieces, value.as_str(), r)
}

/// Sets each name to what stands in its place in a value.
fn extract_from(
    alloc: Global,
    pieces: &[Piece],
    value: &str,
    r: &mut FieldList,
) -> Result<(), AllocError>
    ensures { OnOk result
        (r.new ≡ fold put_extracted r.old (extracted (map pattern_piece pieces.now) (Some value.now))) }
{
    let mut left = value;
    // the name that gets what stands before the next text; an empty one sets nothing
    let mut name = "";
    for piece in pieces {
        match piece {
            Piece::Plain(text) => {
                let (before, after) = split_at_text(left, text.as_str());
                put_extracted(alloc, name, before, r)?;
                name = "";
                left = after;
            }
            Piece::Name(next) => {
                put_extracted(alloc, name, "", r)?;
                name = next.as_str();
            }
        }
    }
    put_extracted(alloc, name, left, r)
}

/// Returns what stands before the first occurrence of a text in a value, and what stands after it. Both are empty
/// where there is none.
fn split_at_text<'v>(value: &'v str, text: &str) -> (&'v str, &'v str)
    ensures before { result.0.now ≡ part_before (split_once text.now value.now) }
    ensures after { result.1.now ≡ unwrap_or (left_after text.now (Some value.now)) [] }
{
    value.split_once(text).unwrap_or(("", ""))
}

/// Sets a field. The name `_` sets nothing, as an empty one does.
fn put_extracted(
    alloc: Global,
    name: &str,
    value: &str,
    r: &mut FieldList,
) -> Result<(), AllocError>
    ensures { OnOk result (r.new ≡ put_extracted r.old (name.now, value.now)) }
{
    if name == "_" {
        return Ok(());
    }
    put_field(alloc, name, value, r)
}
