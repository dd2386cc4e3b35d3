//! Ranges of the rows of a block.

ghost use Rattle.std.specs.Prelude.{◌≡◌, ◌<◌, ◌≤◌, IfOk, IfSome, IsTrue, Some, drop, length, map, slice_get, take};
ghost use Rattle.block_format.specs.Rows.{IsBlock, are_ordered, key_in, labels_of};
ghost use Rattle.block_gather.specs.Picked.{rows_of};
ghost use Rattle.part_picks.specs.Names.{AreNamed};
ghost use Rattle.part_picks.specs.Range.{AreOfStream};

use column_block::{Block, Head, Steps};
use std::alloc::{AllocError, Global};
use std::marker::Model;
use vl_row::{Numbered, Stream};

/// Tells this counter of steps from others.
#[derive(Drop)]
struct Picking;

/// Rows of a block that stand next to each other, at least one.
///
/// A contract sees it as the list of these rows.
#[derive(Drop)]
pub struct Pick<'a> {
    block: &'a Block,
    from: usize,
    to: usize,
}

impl<'a> Model for Pick<'a> {
    ghost use Rattle.std.specs.Prelude.{List};
    ghost use Rattle.log_model.specs.History.{Numbered as NumberedRow};
    ghost use Rattle.std.specs.List.{slice_range};
    ghost use Rattle.part_picks.specs.Range.{IsRange};

    ghost Value = { List NumberedRow };

    ghost view = { λ p. slice_range p.block.now p.from p.to };

    ghost invariant = { λ p. IsRange p.block.now p.from p.to };
}

impl<'a> Pick<'a> {
    /// All rows of a block.
    pub fn whole(block: &'a Block) -> Pick<'a>
        requires { IsBlock block.now }
        ensures { result ≡ block.now }
    {
        Pick {
            block,
            from: 0,
            to: block.head().rows(),
        }
    }

    /// The same rows.
    pub fn copied(&self) -> Pick<'a>
        ensures { result ≡ self.now }
    {
        Pick {
            block: self.block,
            from: self.from,
            to: self.to,
        }
    }

    /// Says what the rows keep. This does nothing.
    pub fn rules(&self)
        ensures ordered { IsTrue (are_ordered self.now) }
        ensures stream { AreOfStream (labels_of self.now) self.now }
    {
        let _ = &self.block;
    }

    /// How many rows there are.
    pub fn len(&self) -> usize
        ensures count { result ≡ length self.now }
        ensures some { 0 < length self.now }
        ensures few { length self.now ≤ 4096 }
    {
        self.to - self.from
    }

    /// The first of the rows, this many.
    pub fn front(&self, count: usize) -> Pick<'a>
        requires some { 0 < count }
        requires there { count ≤ length self.now }
        ensures { result ≡ take count self.now }
    {
        Pick {
            block: self.block,
            from: self.from,
            to: self.from + count,
        }
    }

    /// The rows without the first, this many.
    pub fn rest(&self, count: usize) -> Pick<'a>
        requires { count < length self.now }
        ensures { result ≡ drop count self.now }
    {
        Pick {
            block: self.block,
            from: self.from + count,
            to: self.to,
        }
    }

    /// The time of a row, the number of its batch, and its place there.
    pub fn key(&self, i: usize) -> (i64, u64, u32)
        requires { i < length self.now }
        ensures { slice_get (map key_in self.now) i ≡ Some result }
    {
        let mut steps = Steps::<Picking>::new();
        let opened = self.block.open(&mut steps);
        opened.key(self.from + i)
    }

    /// A row, in memory of its own.
    pub fn row(&self, alloc: Global, i: usize) -> Result<Numbered, AllocError>
        requires { i < length self.now }
        ensures { IfOk result (λ numbered. slice_get self.now i ≡ Some numbered) }
    {
        let mut steps = Steps::<Picking>::new();
        let opened = self.block.open(&mut steps);
        let row = opened.row(alloc, self.from + i)?;
        Ok(row)
    }

    /// The stream of all rows.
    pub fn stream(&self) -> &'a Stream
        ensures { result.now ≡ labels_of self.now }
    {
        self.block.head().stream()
    }

    /// What is known of the block. Its columns have all names of the rows.
    pub(crate) fn head(&self) -> &'a Head
        ensures { AreNamed (map (λ column. column.0) result.now.columns) self.now }
    {
        self.block.head()
    }

    /// The block, if all its rows are picked. It shares its memory.
    pub(crate) fn shared(&self) -> Result<Option<Block>, AllocError>
        ensures { IfOk result (λ found. IfSome found (λ block. block ≡ self.now)) }
    {
        if self.from > 0 || self.to < self.block.head().rows() {
            return Ok(None);
        }
        let block = self.block.share()?;
        Ok(Some(block))
    }

    /// The same rows, to be gathered.
    pub(crate) fn lent(&self) -> column_block::Pick<'a>
        ensures { rows_of result ≡ self.now }
    {
        self.block.pick(self.from, self.to)
    }
}
