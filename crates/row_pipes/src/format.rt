//! The pipe `format`.
ghost use Rattle.std.specs.Prelude.{◌≡◌, IfOk, OnOk, map};
ghost use Rattle.lq_ast.specs.Made.{formatted, piece_text};
ghost use Rattle.lq_ast.specs.MakingView.{pattern_piece};
ghost use Rattle.lq_ast.specs.Records.{put_field};

use lq_ast::Piece;
use std::alloc::{AllocError, Global};
use vl_row::{Field, FieldList, Text};

/// Sets a field to the texts of a pattern and the values of its names, one after another.
pub(crate) fn format(
    alloc: Global,
    pieces: &[Piece],
    name: &str,
    r: &mut FieldList,
) -> Result<(), AllocError>
    ensures { OnOk result (r.new ≡ put_field r.old name.now (formatted (map pattern_piece pieces.now) r.old)) }
{
    if name.is_empty() {
        return Ok(());
    }
    let value = formatted(alloc, pieces, r)?;
    let name = Text::try_of(alloc, name)?;
    r.add(Field { name, value })
}

/// Returns the texts and the values of the names. A short text takes no memory.
fn formatted(alloc: Global, pieces: &[Piece], r: &FieldList) -> Result<Text, AllocError>
    ensures { IfOk result (λ value. value ≡ formatted (map pattern_piece pieces.now) r.now) }
{
    let mut value = Text::new();
    for piece in pieces {
        value.push_str(alloc, piece_text(piece, r))?;
    }
    Ok(value)
}

fn piece_text<'a>(piece: &'a Piece, r: &'a FieldList) -> &'a str
    ensures { result.now ≡ piece_text r.now (pattern_piece piece.now) }
{
    match piece {
        Piece::Plain(text) => text.as_str(),
        Piece::Name(name) => r.get(name.as_str()),
    }
}
