//! Rows of a block, held by columns.

ghost use Rattle.std.specs.Prelude.{◌≡◌, ◌<◌, ◌++◌, [], IfOk, OnOk, Some, length, slice_get};
ghost use Rattle.std.specs.Prelude.{map, slice_index_or, true};
ghost use Rattle.std.specs.List.{AllByRecursion, list_all};
ghost use Rattle.byte_format.specs.Spelling.{HasSpelling};
ghost use Rattle.lent_row.specs.Cells.{value_text};
ghost use Rattle.block_column.specs.Lent.{AreCodes, values_lent};
ghost use Rattle.log_model.specs.History.{AreOfOneBatch, with_batch};
ghost use Rattle.block_model.specs.Columns.{names_of, values_of};
ghost use Rattle.block_model.specs.Keys.{IsNumbered, keys_of};
ghost use Rattle.block_model.specs.Texts.{is_text_row};
ghost use Rattle.block_format.specs.Reading.{block_writing};
ghost use Rattle.block_format.specs.Rows.{IsBlock};
ghost use Rattle.block_format.specs.Spelling.{block_bytes};
ghost use Rattle.block_body.specs.Held.{IsHeld, rows_in};
ghost use Rattle.block_body.specs.Outlines.{DoNotFall, IsSpan, outline_of, time_of};

use crate::body::{Batches, Body, batches_of, body_of};
use crate::columns::columns_of;
use crate::head::Head;
use crate::held_columns::HeldColumns;
use crate::names::ColumnNames;
use block_column::{ColumnValues, ValueColumn};
use block_model::{Key, NumberedRef, row_keys};
use lent_row::Value;
use std::alloc::{AllocError, Global};
use std::marker::Model;
use std::sync::Arc;

/// Rows of one stream, in order of time, batch and place, held by columns. Copies share what they hold.
///
/// A contract sees them as the list of the rows with their numbers.
#[derive(Drop)]
pub struct StoredRows {
    head: Head,
    body: Arc<Body>,
    batches: Batches,
}

impl Model for StoredRows {
    ghost use Rattle.std.specs.Prelude.{List};
    ghost use Rattle.std.specs.Arc.{arc_value};
    ghost use Rattle.log_model.specs.History.{Numbered as NumberedRow};
    ghost use Rattle.block_body.specs.Held.{IsStored, rows_held};

    ghost Value = { List NumberedRow };

    ghost view = { λ b. rows_held b.head (arc_value b.body) b.batches };

    ghost invariant = { λ b.
        IsStored (rows_held b.head (arc_value b.body) b.batches) b.head (arc_value b.body) b.batches };
}

impl StoredRows {
    /// Holds these rows, which are lent. The names of the columns are shared with the last block if they can be.
    pub fn of_lent(
        alloc: Global,
        rows: &[NumberedRef<'_>],
        names: &mut ColumnNames,
    ) -> Result<StoredRows, AllocError>
        requires { IsBlock rows.now }
        ensures rows { IfOk result (λ stored. stored ≡ rows.now) }
        ensures rules { IfOk result (λ stored. AllByRecursion IsNumbered rows.now) }
    {
        let keys = row_keys(alloc, rows)?;
        names.learn(alloc, rows)?;
        let (heads, columns) = columns_of(alloc, rows, names.as_slice())?;
        let head = Head::of(alloc, rows, heads)?;
        let stored = StoredRows::with(alloc, head, keys.as_slice(), columns)?;
        Ok(stored)
    }

    /// Holds the rows of these keys, which have this head and these columns.
    pub fn held(
        alloc: Global,
        head: Head,
        keys: &[Key],
        columns: Vec<ValueColumn>,
    ) -> Result<StoredRows, AllocError>
        requires { IsHeld (rows_in head keys.now columns.items) head keys.now columns.items }
        ensures { IfOk result (λ stored. stored ≡ rows_in head keys.now columns.items) }
    {
        StoredRows::with(alloc, head, keys, HeldColumns::of(columns))
    }

    /// Holds the rows of these keys, which have this head and these columns.
    fn with(
        alloc: Global,
        head: Head,
        keys: &[Key],
        columns: HeldColumns,
    ) -> Result<StoredRows, AllocError>
        requires { IsHeld (rows_in head keys.now columns) head keys.now columns }
        ensures { IfOk result (λ stored. stored ≡ rows_in head keys.now columns) }
    {
        let batches = batches_of(alloc, keys)?;
        let body = body_of(alloc, keys, columns)?;
        let shared = Arc::new(alloc, body)?;
        Ok(StoredRows {
            head,
            body: shared,
            batches,
        })
    }

    /// The same rows, which share their memory.
    pub fn share(&self) -> Result<StoredRows, AllocError>
        ensures { IfOk result (λ stored. stored ≡ self.now) }
    {
        let head = self.head.share()?;
        let body = Arc::try_clone(&self.body)?;
        let batches = self.batches.share()?;
        Ok(StoredRows {
            head,
            body,
            batches,
        })
    }

    /// Gives all rows, which are of one batch, another number of their batch.
    pub fn set_batch(&mut self, number: u64)
        requires { AreOfOneBatch self.old }
        ensures { self.new ≡ with_batch number self.old }
    {
        self.batches = Batches::One(number);
    }

    /// What is known of the rows without their values.
    pub fn head(&self) -> &Head
        ensures outline { result.now ≡ outline_of self.now }
        ensures times { IsSpan self.now result.now }
    {
        &self.head
    }

    /// The key of a row.
    pub fn key(&self, i: usize) -> Key
        requires { i < length self.now }
        ensures { slice_get (keys_of self.now) i ≡ Some result }
    {
        self.body.key(&self.batches, i)
    }

    /// The value of a row in a column.
    pub fn value(&self, i: usize, c: usize) -> Value<'_>
        requires row { i < length self.now }
        requires column { c < length (names_of self.now) }
        ensures { slice_get (values_of self.now (slice_index_or (names_of self.now) c [])) i
            ≡ Some (value_text result) }
    {
        self.body.columns.value(c, i)
    }

    /// The times of the rows, in nanoseconds since 1970, which do not fall.
    pub fn times(&self) -> &[i64]
        ensures times { result.now ≡ map time_of self.now }
        ensures order { DoNotFall result.now }
    {
        self.body.times.as_slice()
    }

    /// The values of all rows in a column, lent as they are held.
    pub fn values(&self, c: usize) -> ColumnValues<'_>
        requires { c < length (names_of self.now) }
        ensures values { values_lent result ≡ values_of self.now (slice_index_or (names_of self.now) c []) }
        ensures codes { AreCodes result }
    {
        self.body.columns.lent(c)
    }

    /// Appends the one spelling of the rows.
    pub fn put(&self, out: &mut Vec<u8>) -> Result<(), AllocError>
        ensures bytes { OnOk result (out.new.items ≡ out.old.items ++ block_bytes self.now) }
        ensures written { block_writing self.now ≡ Some (block_bytes self.now) }
    {
        self.body.put(out, &self.head, &self.batches)
    }

    /// Says what the rows keep. This does nothing.
    pub fn rules(&self)
        ensures block { IsBlock self.now }
        ensures each { AllByRecursion IsNumbered self.now }
        ensures spelled { HasSpelling (block_writing self.now) }
    {
        // What is held is known where one of the fields is named.
        let _ = &self.head;
    }

    /// Says that the rows are in UTF-8. This does nothing.
    pub fn texts(&self)
        ensures { list_all is_text_row self.now ≡ true }
    {
        // What is held is known where one of the fields is named.
        let _ = &self.head;
    }
}
