//! The values of a block's columns.

ghost use Rattle.std.specs.Prelude.{◌≡◌, ◌<◌, ◌^◌, ◌++◌, ◌∷◌, [], IfOk, OnOk, Some, length, map, slice_get};
ghost use Rattle.std.specs.Prelude.{slice_index_or, sum_by};
ghost use Rattle.lent_row.specs.Cells.{value_text};
ghost use Rattle.word_filter.specs.Words.{filter_of};
ghost use Rattle.block_column.specs.Lent.{AreCodes, values_lent};
ghost use Rattle.block_format.specs.Columns.{column_bytes};

use crate::head::ColumnHead;
use block_column::{ColumnValues, ValueColumn};
use block_format::put_column;
use col_codec::TextColumn;
use lent_row::Value;
use std::alloc::{AllocError, Global};
use std::marker::Model;

/// The values of a block's columns. Those of one row are held in one piece.
///
/// A contract sees it as the list of the columns, each as the list of its values, and these as the bytes of their
/// texts.
#[derive(Drop)]
pub(crate) struct HeldColumns {
    columns: Columns,
}

/// How the values are held.
#[derive(Drop)]
pub(crate) enum Columns {
    /// The values of each column.
    Each(Vec<ValueColumn>),
    /// The value of each column, of one row.
    Row(TextColumn),
}

impl Model for HeldColumns {
    ghost use Rattle.std.specs.Prelude.{List, ℕ};
    ghost use Rattle.block_body.specs.HeldColumns.{AreShort, values_held};

    ghost Value = { List (List (List ℕ)) };

    ghost view = { λ h. values_held h.columns };

    ghost invariant = { λ h. AreShort h.columns };
}

impl HeldColumns {
    /// Holds these columns.
    pub(crate) fn of(columns: Vec<ValueColumn>) -> HeldColumns
        ensures { result ≡ columns.items }
    {
        HeldColumns {
            columns: Columns::Each(columns),
        }
    }

    /// Holds the columns of one row, which has these values.
    pub(crate) fn of_row(alloc: Global, values: &[&str]) -> Result<HeldColumns, AllocError>
        requires { sum_by (λ t. length t.now) values.now < 2 ^ 32 }
        ensures { IfOk result (λ columns. columns ≡ map (λ t. t.now ∷ []) values.now) }
    {
        let texts = TextColumn::try_of(alloc, values)?;
        Ok(HeldColumns {
            columns: Columns::Row(texts),
        })
    }

    /// How many columns there are.
    pub(crate) fn len(&self) -> usize
        ensures { result ≡ length self.now }
    {
        match &self.columns {
            Columns::Each(columns) => columns.len(),
            Columns::Row(values) => values.len(),
        }
    }

    /// The value of a row in a column.
    pub(crate) fn value(&self, c: usize, i: usize) -> Value<'_>
        requires column { c < length self.now }
        requires row { i < length (slice_index_or self.now c []) }
        ensures { slice_get (slice_index_or self.now c []) i ≡ Some (value_text result) }
    {
        match &self.columns {
            Columns::Each(columns) => columns[c].value(i),
            Columns::Row(values) => Value::Str(values.get(c)),
        }
    }

    /// A column, lent as it is held.
    pub(crate) fn lent(&self, c: usize) -> ColumnValues<'_>
        requires { c < length self.now }
        ensures values { values_lent result ≡ slice_index_or self.now c [] }
        ensures codes { AreCodes result }
    {
        match &self.columns {
            Columns::Each(columns) => columns[c].lent(),
            Columns::Row(values) => ColumnValues::Constant(values.get(c), 1),
        }
    }

    /// Appends a column, which has this head.
    pub(crate) fn put(
        &self,
        out: &mut Vec<u8>,
        c: usize,
        head: &ColumnHead,
    ) -> Result<(), AllocError>
        requires column { c < length self.now }
        requires name { length head.now.0 < 2 ^ 16 }
        requires filter { head.now.1 ≡ filter_of (slice_index_or self.now c []) }
        ensures { OnOk result (out.new.items
            ≡ out.old.items ++ column_bytes (head.now.0, slice_index_or self.now c [])) }
    {
        match &self.columns {
            Columns::Each(columns) => put_column(out, head.name(), head.bloom(), &columns[c]),
            Columns::Row(values) => put_value(out, head, values.get(c)),
        }
    }
}

/// Appends the column of one row, which has this value.
fn put_value(out: &mut Vec<u8>, head: &ColumnHead, value: &str) -> Result<(), AllocError>
    requires name { length head.now.0 < 2 ^ 16 }
    requires filter { head.now.1 ≡ filter_of (value.now ∷ []) }
    requires short { length value.now < 2 ^ 32 }
    ensures { OnOk result (out.new.items ≡ out.old.items ++ column_bytes (head.now.0, value.now ∷ [])) }
{
    let column = ValueColumn::try_of(*out.allocator(), &[value])?;
    put_column(out, head.name(), head.bloom(), &column)
}
