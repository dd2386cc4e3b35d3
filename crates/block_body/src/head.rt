//! What is known of a block without its values.

ghost use Rattle.std.specs.Prelude.{◌≡◌, ◌<◌, ◌≤◌, ◌^◌, IfNone, IfOk, IfSome, Some, false, length, map, pos, slice_get};
ghost use Rattle.vl_row.specs.Names.{is_among};
ghost use Rattle.vl_row.specs.Place.{IsInOrder};
ghost use Rattle.log_model.specs.Field.{weight};
ghost use Rattle.log_model.specs.Row.{IsRow};
ghost use Rattle.block_body.specs.Outlines.{outline_of, outline_with, weight_of};

use crate::names::Name;
use block_model::NumberedRef;
use std::alloc::{AllocError, Global};
use std::marker::Model;
use std::sync::Arc;
use token_bloom::Bloom;
use vl_row::Stream;

/// A column's name, and a filter of the words of its values.
///
/// A contract sees it as both.
#[derive(Drop)]
pub struct ColumnHead {
    name: Name,
    bloom: Bloom,
}

impl Model for ColumnHead {
    ghost use Rattle.std.specs.Prelude.{◌<◌, ◌^◌, length};
    ghost use Rattle.block_body.specs.Outline.{NamedFilter};

    ghost Value = { NamedFilter };

    ghost view = { λ c. (c.name, c.bloom) };

    ghost invariant = { λ c. length c.bloom < 2 ^ 32 };
}

impl ColumnHead {
    pub fn new(name: Name, bloom: Bloom) -> ColumnHead
        requires { length bloom < 2 ^ 32 }
        ensures { result ≡ (name, bloom) }
    {
        ColumnHead { name, bloom }
    }

    pub(crate) fn name(&self) -> &str
        ensures { result.now ≡ self.now.0 }
    {
        self.name.as_str()
    }

    pub(crate) fn bloom(&self) -> &Bloom
        ensures value { result.now ≡ self.now.1 }
        ensures small { length self.now.1 < 2 ^ 32 }
    {
        &self.bloom
    }
}

/// The least and the greatest time of a block's rows, how many there are, and the bytes of their names and values.
#[derive(Clone, Copy, Drop)]
pub struct Extent {
    pub min: i64,
    pub max: i64,
    pub rows: usize,
    pub weight: u64,
}

#[derive(Drop)]
struct Known {
    stream: Stream,
    extent: Extent,
    columns: Vec<ColumnHead>,
}

/// What is known of a block without its values: the stream, the times, and of each column its name and a filter of the
/// words of its values. The columns are in byte order of their names. Copies share it.
#[derive(Drop)]
pub struct Head {
    known: Arc<Known>,
}

impl Model for Head {
    ghost use Rattle.std.specs.Arc.{arc_value};
    ghost use Rattle.vl_row.specs.Place.{IsInOrder};
    ghost use Rattle.block_body.specs.Outline.{Outline};

    ghost Value = { Outline };

    ghost view = { λ h. record {
      labels = (arc_value h.known).stream;
      min = (arc_value h.known).extent.min;
      max = (arc_value h.known).extent.max;
      rows = (arc_value h.known).extent.rows;
      weight = (arc_value h.known).extent.weight;
      columns = (arc_value h.known).columns.items;
    } };

    ghost invariant = { λ h. IsInOrder (arc_value h.known).columns.items };
}

impl Head {
    /// The head of a block of these rows, which has these columns.
    pub(crate) fn of(
        alloc: Global,
        rows: &[NumberedRef<'_>],
        columns: Vec<ColumnHead>,
    ) -> Result<Head, AllocError>
        requires some { 0 < length rows.now }
        requires few { length rows.now ≤ 4096 }
        requires columns { columns.items ≡ (outline_of rows.now).columns }
        ensures { IfOk result (λ head. head ≡ outline_of rows.now) }
    {
        let first = &rows[0];
        let last = &rows[rows.len() - 1];
        let stream = first.row.stream().try_copy(alloc)?;
        let extent = Extent {
            min: first.row.time(),
            max: last.row.time(),
            rows: rows.len(),
            weight: weight_of(rows),
        };
        let head = Head::new(alloc, stream, extent, columns)?;
        Ok(head)
    }

    /// The head of rows in this stream, which have this extent and these columns, in byte order of their names.
    pub fn new(
        alloc: Global,
        stream: Stream,
        extent: Extent,
        columns: Vec<ColumnHead>,
    ) -> Result<Head, AllocError>
        requires { IsInOrder columns.items }
        ensures { IfOk result (λ head. head ≡ outline_with stream extent columns.items) }
    {
        let known = Known {
            stream,
            extent,
            columns,
        };
        let shared = Arc::new(alloc, known)?;
        Ok(Head { known: shared })
    }

    /// The stream of all rows.
    pub fn stream(&self) -> &Stream
        ensures { result.now ≡ self.now.labels }
    {
        &self.known.stream
    }

    /// The least time, in nanoseconds since 1970.
    pub fn min(&self) -> i64
        ensures { result ≡ self.now.min }
    {
        self.known.extent.min
    }

    /// The greatest time, in nanoseconds since 1970.
    pub fn max(&self) -> i64
        ensures { result ≡ self.now.max }
    {
        self.known.extent.max
    }

    /// How many rows there are.
    pub fn rows(&self) -> usize
        ensures { result ≡ self.now.rows }
    {
        self.known.extent.rows
    }

    /// The bytes of the names and the values of all rows.
    pub fn weight(&self) -> u64
        ensures { result ≡ self.now.weight }
    {
        self.known.extent.weight
    }

    /// How many columns there are.
    pub fn columns(&self) -> usize
        ensures { result ≡ length self.now.columns }
    {
        self.known.columns.len()
    }

    /// The name of a column.
    pub fn name(&self, c: usize) -> &str
        requires { c < length self.now.columns }
        ensures { slice_get (map (λ column. column.0) self.now.columns) c ≡ Some result.now }
    {
        let columns = self.column_heads();
        columns[c].name()
    }

    /// The column of this name, if there is one, by binary search.
    pub fn column_named(&self, name: &str) -> Option<usize>
        ensures some { IfSome result (λ c.
            slice_get (map (λ column. column.0) self.now.columns) c ≡ Some name.now) }
        ensures none { IfNone result (is_among (map (λ column. column.0) self.now.columns) name.now ≡ false) }
    {
        place_in(self.known.columns.as_slice(), name)
    }

    /// The filter of the words of a column's values.
    pub fn bloom(&self, c: usize) -> &Bloom
        requires { c < length self.now.columns }
        ensures { slice_get (map (λ column. column.1) self.now.columns) c ≡ Some result.now }
    {
        let columns = self.column_heads();
        columns[c].bloom()
    }

    pub(crate) fn column_heads(&self) -> &[ColumnHead]
        ensures { result.now ≡ self.now.columns }
    {
        self.known.columns.as_slice()
    }

    /// An equal head, which shares its memory.
    pub fn share(&self) -> Result<Head, AllocError>
        ensures { IfOk result (λ head. head ≡ self.now) }
    {
        let known = Arc::try_clone(&self.known)?;
        Ok(Head { known })
    }

    /// An equal head.
    pub fn try_copy(&self, _alloc: Global) -> Result<Head, AllocError>
        ensures { IfOk result (λ head. head ≡ self.now) }
    {
        self.share()
    }
}

/// Where the column of a name stands, if there is one, among columns in order of their names.
fn place_in(columns: &[ColumnHead], name: &str) -> Option<usize>
    requires { IsInOrder columns.now }
    ensures some { IfSome result (λ c. slice_get (map (λ column. column.0) columns.now) c ≡ Some name.now) }
    ensures none { IfNone result (is_among (map (λ column. column.0) columns.now) name.now ≡ false) }
{
    match columns.binary_search_by(|column| column.name().cmp(name)) {
        Ok(c) => Some(c),
        Err(_) => None,
    }
}

/// The bytes of the names and the values of all rows.
fn weight_of(rows: &[NumberedRef<'_>]) -> u64
    requires { length rows.now ≤ 4096 }
    ensures { result ≡ weight_of rows.now }
{
    let mut weight = 0;
    for numbered in rows {
        weight += row_weight(numbered);
    }
    weight
}

fn row_weight(numbered: &NumberedRef<'_>) -> u64
    ensures weight { result ≡ weight numbered.now.row.fields }
    ensures light { result ≤ 262_144 }
{
    let row = numbered.row;
    row.weight()
}
