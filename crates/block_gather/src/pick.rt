//! Rows that are picked out of a block.

ghost use Rattle.std.specs.Prelude.{◌≡◌, ◌<◌, ◌≤◌, ◌-◌, [], IfNone, IfSome, Some, false, length, slice_get};
ghost use Rattle.std.specs.Prelude.{slice_index_or, true};
ghost use Rattle.std.specs.List.{AllByRecursion, list_all};
ghost use Rattle.lent_row.specs.Cells.{value_text};
ghost use Rattle.vl_row.specs.Names.{is_among};
ghost use Rattle.block_model.specs.Columns.{names_of, values_of};
ghost use Rattle.block_model.specs.Keys.{IsNumbered, keys_of};
ghost use Rattle.block_model.specs.Texts.{is_text_row};
ghost use Rattle.block_format.specs.Rows.{labels_of};
ghost use Rattle.block_gather.specs.Picked.{picked, rows_of};

use block_body::StoredRows;
use block_model::Key;
use lent_row::Value;
use std::marker::Model;
use vl_row::Stream;

/// Rows of a block that stand one after another, and are lent.
///
/// A contract sees it as the rows of the block, with the places of the first row that is picked and of the first after
/// it that is not.
#[derive(Drop)]
pub struct Pick<'a> {
    stored: &'a StoredRows,
    from: usize,
    to: usize,
}

impl<'a> Model for Pick<'a> {
    ghost use Rattle.std.specs.Prelude.{◌<◌, ◌≤◌, length};
    ghost use Rattle.block_gather.specs.Picked.{Picked, picked};

    ghost Value = { Picked };

    ghost view = { λ p. picked p.stored.now p.from p.to };

    ghost invariant = { λ p. (p.from < p.to) × (p.to ≤ length p.stored.now) };
}

impl<'a> Pick<'a> {
    /// Picks the rows from place `from` up to, and without, place `to`.
    pub fn new(stored: &'a StoredRows, from: usize, to: usize) -> Pick<'a>
        requires some { from < to }
        requires within { to ≤ length stored.now }
        ensures { result ≡ picked stored.now from to }
    {
        Pick { stored, from, to }
    }

    /// The place of the first row that is picked.
    pub(crate) fn from(&self) -> usize
        ensures from { result ≡ self.now.from }
        ensures some { self.now.from < self.now.to }
    {
        self.from
    }

    /// The place of the first row after it that is not.
    pub(crate) fn to(&self) -> usize
        ensures to { result ≡ self.now.to }
        ensures within { self.now.to ≤ length self.now.block }
    {
        self.to
    }

    /// How many rows are picked.
    pub(crate) fn len(&self) -> usize
        ensures len { result ≡ self.now.to - self.now.from }
        ensures some { self.now.from < self.now.to }
        ensures within { self.now.to ≤ length self.now.block }
    {
        self.to - self.from
    }

    /// The stream of the rows that are picked, of which there is one at least.
    pub(crate) fn stream(&self) -> &'a Stream
        ensures labels { result.now ≡ labels_of (rows_of self.now) }
        ensures some { 0 < length (rows_of self.now) }
    {
        let stored = self.stored;
        stored.rules();
        stored.head().stream()
    }

    /// How many columns the block has.
    pub(crate) fn columns(&self) -> usize
        ensures { result ≡ length (names_of self.now.block) }
    {
        self.stored.head().columns()
    }

    /// The name of a column.
    pub(crate) fn name(&self, c: usize) -> &'a str
        requires { c < length (names_of self.now.block) }
        ensures { slice_get (names_of self.now.block) c ≡ Some result.now }
    {
        let stored = self.stored;
        stored.head().name(c)
    }

    /// The column of this name, if there is one, by binary search.
    pub(crate) fn column_named(&self, name: &str) -> Option<usize>
        ensures some { IfSome result (λ c. slice_get (names_of self.now.block) c ≡ Some name.now) }
        ensures none { IfNone result (is_among (names_of self.now.block) name.now ≡ false) }
    {
        self.stored.head().column_named(name)
    }

    /// The key of a row of the block.
    pub(crate) fn key(&self, i: usize) -> Key
        requires { i < length self.now.block }
        ensures { slice_get (keys_of self.now.block) i ≡ Some result }
    {
        self.stored.key(i)
    }

    /// The value of a row of the block in a column.
    pub(crate) fn value(&self, i: usize, c: usize) -> Value<'a>
        requires row { i < length self.now.block }
        requires column { c < length (names_of self.now.block) }
        ensures { slice_get (values_of self.now.block (slice_index_or (names_of self.now.block) c [])) i
            ≡ Some (value_text result) }
    {
        let stored = self.stored;
        stored.value(i, c)
    }

    /// Says what the rows of the block keep. This does nothing.
    pub(crate) fn rules(&self)
        ensures each { AllByRecursion IsNumbered self.now.block }
        ensures texts { list_all is_text_row self.now.block ≡ true }
    {
        self.stored.rules();
        self.stored.texts();
    }
}
