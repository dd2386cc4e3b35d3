//! Columns.

ghost use Rattle.std.specs.Prelude.{◌≡◌, ◌<◌, ◌^◌, ◌++◌, IfOk, IfSome, OnOk, Some, is_some, length, map, slice_get};
ghost use Rattle.std.specs.Prelude.{IsTrue, IsUtf8, bytes_eq, sum_by, true};
ghost use Rattle.std.specs.Fmt.{signed_decimal};
ghost use Rattle.std.specs.List.{list_all};
ghost use Rattle.byte_format.specs.Format.{front};
ghost use Rattle.byte_format.specs.Gives.{Gives};
ghost use Rattle.lent_row.specs.Cells.{value_text};
ghost use Rattle.block_column.specs.Body.{body};
ghost use Rattle.block_column.specs.Cells.{IsFirst, texts_of};
ghost use Rattle.block_model.specs.Distinct.{distinct};
ghost use Rattle.block_column.specs.Kinds.{body_of, code_of_kind, is_held_once, kind_of};
ghost use Rattle.block_column.specs.Lent.{AreCodes, values_lent};

use crate::cells::{Cells, are_all, kind_of, len_of, value_at};
use crate::kept::into_first;
use crate::kinds::first_kind;
use crate::lent::{ColumnValues, values_of};
use crate::members::members_of;
use crate::put::put_cells;
use crate::row_texts::RowTexts;
use crate::take::take_cells;
use byte_format::Stop;
use itoa::Buffer;
use lent_row::Value;
use std::alloc::{AllocError, Global};
use std::marker::Model;

/// How many bytes the text of a value has, which is in UTF-8.
pub fn text_len(value: Value<'_>) -> usize
    ensures len { result ≡ length (value_text value.entry) }
    ensures text { IsUtf8 (value_text value.entry) }
{
    match value {
        Value::Str(text) => len_of_text(text),
        Value::Int(integer) => decimal_len(integer),
    }
}

fn len_of_text(text: &str) -> usize
    ensures len { result ≡ length text.now }
    ensures text { IsUtf8 text.now }
{
    text.len()
}

/// How many bytes the decimal text of an integer has.
fn decimal_len(integer: i64) -> usize
    ensures len { result ≡ length (signed_decimal integer) }
    ensures text { IsUtf8 (signed_decimal integer) }
{
    let mut buffer = Buffer::new();
    len_of_text(buffer.format(integer))
}

/// The values that one field has in the rows, in the first of four kinds that fits.
///
/// A contract sees it as their list, each as the bytes of its text.
#[derive(Drop)]
pub struct ValueColumn {
    cells: Cells,
}

impl Model for ValueColumn {
    ghost use Rattle.std.specs.Prelude.{List, ℕ};
    ghost use Rattle.block_column.specs.Cells.{IsFirst, texts_of};

    ghost Value = { List (List ℕ) };

    ghost view = { λ c. texts_of c.cells };

    ghost invariant = { λ c. IsFirst c.cells };
}

impl ValueColumn {
    /// A column of these values.
    pub fn try_of(alloc: Global, values: &[&str]) -> Result<ValueColumn, AllocError>
        requires { sum_by (λ t. length t.now) values.now < 2 ^ 32 }
        ensures { IfOk result (λ column. column ≡ map (λ t. t.now) values.now) }
    {
        let cells = first_kind(alloc, values)?;
        Ok(ValueColumn { cells })
    }

    /// How many rows there are.
    pub fn len(&self) -> usize
        ensures { result ≡ length self.now }
    {
        len_of(&self.cells)
    }

    /// The value of a row.
    pub fn value(&self, i: usize) -> Value<'_>
        requires { i < length self.now }
        ensures { slice_get self.now i ≡ Some (value_text result) }
    {
        value_at(&self.cells, i)
    }

    /// The values, lent as they are held.
    pub fn lent(&self) -> ColumnValues<'_>
        ensures values { values_lent result ≡ self.now }
        ensures codes { AreCodes result }
    {
        values_of(&self.cells)
    }

    /// The distinct values, each once and in byte order, if equal values are held once, and else none.
    pub fn members<'a>(&'a self, alloc: Global) -> Result<Option<Vec<&'a str>>, AllocError>
        ensures once { IfOk result (λ found. is_some found ≡ is_held_once (kind_of self.now)) }
        ensures each { IfOk result (λ found. IfSome found (λ texts.
            map (λ t. t.now) texts.items ≡ distinct self.now)) }
        ensures small { IfOk result (λ found. IfSome found (λ texts.
            sum_by (λ t. length t.now) texts.items < 2 ^ 32)) }
    {
        members_of(alloc, &self.cells)
    }

    /// The same values, with what is needed to lend their texts.
    pub fn row_texts(&self, alloc: Global) -> Result<RowTexts<'_>, AllocError>
        ensures { IfOk result (λ texts. texts ≡ self.now) }
    {
        RowTexts::try_of(alloc, &self.cells)
    }

    /// The number of the kind.
    pub fn kind(&self) -> u8
        ensures { result ≡ code_of_kind (kind_of self.now) }
    {
        kind_of(&self.cells)
    }

    /// Appends the body, which stands after the kind and the filter.
    pub fn put_body(&self, out: &mut Vec<u8>) -> Result<(), AllocError>
        ensures { OnOk result (out.new.items ≡ out.old.items ++ body_of (kind_of self.now) self.now) }
    {
        put_cells(out, &self.cells)
    }
}

/// The values that the body of a column says, in whatever kind it has.
///
/// A contract sees it as their list, each as the bytes of its text.
#[derive(Drop)]
pub struct FoundColumn {
    cells: Cells,
}

impl Model for FoundColumn {
    ghost use Rattle.std.specs.Prelude.{List, ℕ};
    ghost use Rattle.block_column.specs.Cells.{IsCells, texts_of};

    ghost Value = { List (List ℕ) };

    ghost view = { λ c. texts_of c.cells };

    ghost invariant = { λ c. IsCells c.cells };
}

impl FoundColumn {
    /// The body of a column of this kind, and the bytes after it.
    pub fn take_body(
        alloc: Global,
        rows: usize,
        kind: u8,
        bytes: &[u8],
    ) -> Result<(FoundColumn, &[u8]), Stop>
        ensures value { Gives (λ x. (x.0, x.1.now)) result (front (body rows kind) bytes.now) }
        ensures count { IfOk result (λ x. length x.0 ≡ rows) }
    {
        let (cells, rest) = take_cells(alloc, rows, kind, bytes)?;
        Ok((FoundColumn { cells }, rest))
    }

    /// The same values, in the first kind that fits. Where they have it already, they are not looked at one by one.
    pub fn into_column(self, alloc: Global) -> Result<ValueColumn, AllocError>
        requires { sum_by length self < 2 ^ 32 }
        ensures { IfOk result (λ column. column ≡ self) }
    {
        let cells = into_first(alloc, self.cells)?;
        Ok(ValueColumn { cells })
    }

    /// How many rows there are.
    pub fn len(&self) -> usize
        ensures { result ≡ length self.now }
    {
        len_of(&self.cells)
    }

    /// Whether the value of each row is this text. Where all values are equal that is seen, if they are held once.
    pub fn is_filled_with(&self, text: &str) -> bool
        ensures { IsTrue result → list_all (bytes_eq text.now) self.now ≡ true }
    {
        are_all(&self.cells, text)
    }

    /// The value of a row.
    pub fn value(&self, i: usize) -> Value<'_>
        requires { i < length self.now }
        ensures { slice_get self.now i ≡ Some (value_text result) }
    {
        value_at(&self.cells, i)
    }
}
