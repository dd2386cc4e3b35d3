//! Writing the body of a column.

ghost use Rattle.std.specs.Prelude.{◌≡◌, ◌≤◌, ◌++◌, OnOk, length, true};
ghost use Rattle.std.specs.Int.{w16};
ghost use Rattle.std.specs.List.{flat_map, list_all};
ghost use Rattle.byte_format.specs.Written.{text_bytes};
ghost use Rattle.block_column.specs.Cells.{IsNarrow, body_in};
ghost use Rattle.block_model.specs.Distinct.{is_short};
ghost use Rattle.block_column.specs.Kinds.{dictionary_bytes};

use crate::cells::Cells;
use byte_format::{put_text16, put_text32};
use col_codec::TextColumn;
use std::alloc::AllocError;

/// Appends the body of a column that is held so.
pub(crate) fn put_cells(out: &mut Vec<u8>, cells: &Cells) -> Result<(), AllocError>
    requires { IsNarrow cells.now }
    ensures { OnOk result (out.new.items ≡ out.old.items ++ body_in cells.now) }
{
    match cells {
        Cells::Constant(text, _) => put_text32(out, text.as_str())?,
        Cells::Integers(ints) => ints.put(out)?,
        Cells::Dictionary(texts, codes) => put_dictionary(out, texts, codes.as_slice())?,
        Cells::Plain(texts) => texts.put(out)?,
    }
    Ok(())
}

fn put_dictionary(out: &mut Vec<u8>, texts: &TextColumn, codes: &[u8]) -> Result<(), AllocError>
    requires few { length texts.now ≤ 255 }
    requires short { list_all is_short texts.now ≡ true }
    ensures { OnOk result (out.new.items ≡ out.old.items ++ dictionary_bytes texts.now codes.now) }
{
    out.push(texts.len() as u8)?;
    put_texts(out, texts)?;
    out.extend_from_slice(codes)?;
    Ok(())
}

fn put_texts(out: &mut Vec<u8>, texts: &TextColumn) -> Result<(), AllocError>
    requires { list_all is_short texts.now ≡ true }
    ensures { OnOk result (out.new.items ≡ out.old.items ++ flat_map (text_bytes w16) texts.now) }
{
    for i in 0..texts.len() {
        put_short(out, texts.get(i))?;
    }
    Ok(())
}

fn put_short(out: &mut Vec<u8>, text: &str) -> Result<(), AllocError>
    requires { is_short text.now ≡ true }
    ensures { OnOk result (out.new.items ≡ out.old.items ++ text_bytes w16 text.now) }
{
    put_text16(out, text)
}
