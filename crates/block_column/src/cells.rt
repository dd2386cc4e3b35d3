//! How a column holds its values.

ghost use Rattle.std.specs.Prelude.{◌≡◌, ◌<◌, IsTrue, Some, bytes_eq, length, map, nat_lt, replicate, slice_get, true};
ghost use Rattle.std.specs.List.{list_all};
ghost use Rattle.lent_row.specs.Cells.{value_text};
ghost use Rattle.block_model.specs.Distinct.{text_at};
ghost use Rattle.block_column.specs.Cells.{IsCells, kind_in, texts_of};
ghost use Rattle.block_column.specs.Kinds.{code_of_kind};

use crate::codes::is_value;
use col_codec::{IntColumn, TextColumn};
use lent_row::Value;
use vl_row::Text;

/// The values of a column, as one of the four kinds has them.
#[derive(Drop)]
pub(crate) enum Cells {
    /// So many rows have this value.
    Constant(Text, usize),
    /// Each value is the decimal text of an integer.
    Integers(IntColumn),
    /// Some values, and for each row the place of its value among them.
    Dictionary(TextColumn, Vec<u8>),
    /// Any values.
    Plain(TextColumn),
}

/// The number of a kind.
pub(crate) fn kind_of(cells: &Cells) -> u8
    ensures { result ≡ code_of_kind (kind_in cells.now) }
{
    match cells {
        Cells::Constant(_, _) => 0,
        Cells::Integers(_) => 1,
        Cells::Dictionary(_, _) => 2,
        Cells::Plain(_) => 3,
    }
}

/// How many rows there are.
pub(crate) fn len_of(cells: &Cells) -> usize
    ensures { result ≡ length (texts_of cells.now) }
{
    match cells {
        Cells::Constant(_, rows) => *rows,
        Cells::Integers(ints) => ints.len(),
        Cells::Dictionary(_, codes) => codes.len(),
        Cells::Plain(texts) => texts.len(),
    }
}

/// The value of a row.
pub(crate) fn value_at(cells: &Cells, i: usize) -> Value<'_>
    requires codes { IsCells cells.now }
    requires within { i < length (texts_of cells.now) }
    ensures { slice_get (texts_of cells.now) i ≡ Some (value_text result) }
{
    match cells {
        Cells::Constant(text, _) => Value::Str(text.as_str()),
        Cells::Integers(ints) => Value::Int(ints.get(i)),
        Cells::Dictionary(texts, codes) => Value::Str(coded(texts, codes.as_slice(), i)),
        Cells::Plain(texts) => Value::Str(texts.get(i)),
    }
}

/// Whether the value of each row is this text, if that is quickly seen.
pub(crate) fn are_all(cells: &Cells, text: &str) -> bool
    ensures { IsTrue result → list_all (bytes_eq text.now) (texts_of cells.now) ≡ true }
{
    match cells {
        Cells::Constant(value, rows) => is_filled(value, *rows, text),
        _ => false,
    }
}

fn is_filled(value: &Text, _rows: usize, text: &str) -> bool
    ensures { IsTrue result → list_all (bytes_eq text.now) (replicate _rows value.now) ≡ true }
{
    is_value(value, text)
}

/// The text that the code of a row stands for.
pub(crate) fn coded<'a>(texts: &'a TextColumn, codes: &[u8], i: usize) -> &'a str
    requires codes { list_all (λ code. nat_lt code (length texts.now)) codes.now ≡ true }
    requires within { i < length codes.now }
    ensures { slice_get (map (text_at texts.now) codes.now) i ≡ Some result.now }
{
    texts.get(codes[i] as usize)
}
