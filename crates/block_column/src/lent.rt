//! Columns that lend their values as they are held.

ghost use Rattle.std.specs.Prelude.{◌≡◌};
ghost use Rattle.block_column.specs.Cells.{IsCells, texts_of};
ghost use Rattle.block_column.specs.Lent.{AreCodes, values_lent};

use crate::cells::Cells;
use col_codec::{IntColumn, TextColumn};

/// The values of one column, lent as they are held.
#[derive(Clone, Copy)]
pub enum ColumnValues<'a> {
    /// So many rows have this value.
    Constant(&'a str, usize),
    /// Each value is the decimal text of an integer.
    Integers(&'a IntColumn),
    /// Some values, and for each row the place of its value among them.
    Dictionary(&'a TextColumn, &'a [u8]),
    /// Any values.
    Plain(&'a TextColumn),
}

/// The values, lent as they are held.
pub(crate) fn values_of(cells: &Cells) -> ColumnValues<'_>
    requires { IsCells cells.now }
    ensures values { values_lent result ≡ texts_of cells.now }
    ensures codes { AreCodes result }
{
    match cells {
        Cells::Constant(text, rows) => ColumnValues::Constant(text.as_str(), *rows),
        Cells::Integers(ints) => ColumnValues::Integers(ints),
        Cells::Dictionary(texts, codes) => ColumnValues::Dictionary(texts, codes.as_slice()),
        Cells::Plain(texts) => ColumnValues::Plain(texts),
    }
}
