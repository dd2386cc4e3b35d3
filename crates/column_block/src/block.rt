//! Blocks.

ghost use Rattle.std.specs.Prelude.{◌≡◌, ◌+◌, ◌-◌, ◌^◌, ◌++◌, IfErr, IfOk, List, Ok, OnOk, Some};
ghost use Rattle.std.specs.Prelude.{◌<◌, ◌≤◌, length, min, true};
ghost use Rattle.std.specs.List.{AllByRecursion, list_all};
ghost use Rattle.byte_format.specs.Spelling.{reading};
ghost use Rattle.log_model.specs.History.{AreOfOneBatch, Numbered as NumberedRow, rows_in, with_batch};
ghost use Rattle.log_model.specs.Row.{batch_weight};
ghost use Rattle.block_model.specs.Keys.{IsNumbered};
ghost use Rattle.block_model.specs.Texts.{is_text_row};
ghost use Rattle.block_format.specs.Reading.{block, block_writing};
ghost use Rattle.block_format.specs.Rows.{IsBlock};
ghost use Rattle.block_format.specs.Spelling.{block_bytes};
ghost use Rattle.block_body.specs.Outlines.{IsSpan, outline_of};
ghost use Rattle.block_gather.specs.Picked.{picked, rows_picked};
ghost use Rattle.column_block.specs.Answers.{AnswersAs, IsPlaceOf};

use crate::fault::{BlockFault, fault_of};
use crate::open::Open;
use crate::steps::Steps;
use block_body::{ColumnNames, Head, StoredRows};
use block_gather::{Pick, gathered};
use block_model::{NumberedRef, lend};
use block_reading::Items;
use byte_format::read_exactly;
use std::alloc::{AllocError, Global};
use std::marker::Model;
use vl_row::Numbered;

/// Rows of one stream, in order of time, batch and place, held by columns. Copies share what they hold.
///
/// A contract sees it as the list of its rows with their numbers.
#[derive(Drop)]
pub struct Block {
    stored: StoredRows,
}

impl Model for Block {
    ghost use Rattle.std.specs.Prelude.{List};
    ghost use Rattle.log_model.specs.History.{Numbered as NumberedRow};

    ghost Value = { List NumberedRow };

    ghost view = { λ b. b.stored };
}

impl Block {
    /// A block of these rows.
    pub fn try_of(alloc: Global, rows: &[Numbered]) -> Result<Block, AllocError>
        requires { IsBlock rows.now }
        ensures rows { IfOk result (λ block. block ≡ rows.now) }
        ensures rules { IfOk result (λ block. AllByRecursion IsNumbered rows.now) }
    {
        let lent = lend(alloc, rows)?;
        let mut names = ColumnNames::new(alloc);
        let block = Block::of_lent(alloc, lent.as_slice(), &mut names)?;
        Ok(block)
    }

    /// A block of these rows, which are lent. The names of the columns are shared with the last block if they can be.
    pub fn of_lent(
        alloc: Global,
        rows: &[NumberedRef<'_>],
        names: &mut ColumnNames,
    ) -> Result<Block, AllocError>
        requires { IsBlock rows.now }
        ensures rows { IfOk result (λ block. block ≡ rows.now) }
        ensures rules { IfOk result (λ block. AllByRecursion IsNumbered rows.now) }
    {
        let stored = StoredRows::of_lent(alloc, rows, names)?;
        Ok(Block { stored })
    }

    /// A block of picked rows, one pick after another. No row is made. The names of the columns are shared with the
    /// last block if they can be.
    pub fn of_picks(
        alloc: Global,
        picks: &[Pick<'_>],
        names: &mut ColumnNames,
    ) -> Result<Block, AllocError>
        requires { IsBlock (rows_picked picks.now) }
        ensures rows { IfOk result (λ block. block ≡ rows_picked picks.now) }
    {
        let stored = gathered(alloc, picks, names)?;
        Ok(Block { stored })
    }

    /// Picks the rows from place `from` up to, and without, place `to`.
    pub fn pick(&self, from: usize, to: usize) -> Pick<'_>
        requires some { from < to }
        requires within { to ≤ length self.now }
        ensures { result ≡ picked self.now from to }
    {
        Pick::new(&self.stored, from, to)
    }

    /// An equal block, which shares its memory.
    pub fn share(&self) -> Result<Block, AllocError>
        ensures { IfOk result (λ block. block ≡ self.now) }
    {
        let stored = self.stored.share()?;
        Ok(Block { stored })
    }

    /// Gives all rows, which are of one batch, another number of their batch. What is shared with other blocks stays.
    pub fn set_batch(&mut self, number: u64)
        requires { AreOfOneBatch self.old }
        ensures { self.new ≡ with_batch number self.old }
    {
        self.stored.set_batch(number);
    }

    /// What is known of the block without its values.
    pub fn head(&self) -> &Head
        ensures outline { result.now ≡ outline_of self.now }
        ensures times { IsSpan self.now result.now }
    {
        self.stored.head()
    }

    /// The bytes of the names and the values of all rows.
    pub fn weight(&self) -> u64
        ensures { result ≡ batch_weight (rows_in self.now) }
    {
        self.stored.head().weight()
    }

    /// Says what the rows keep. This does nothing.
    pub fn rules(&self)
        ensures block { IsBlock self.now }
        ensures texts { list_all is_text_row self.now ≡ true }
    {
        self.stored.rules();
        self.stored.texts();
    }

    /// Opens the block, which counts as one step.
    pub fn open<L>(&self, steps: &mut Steps<L>) -> Open<'_>
        ensures rows { result ≡ self.now }
        ensures steps { steps.new ≡ min (steps.old + 1) (2 ^ 64 - 1) }
    {
        steps.step();
        Open::new(&self.stored)
    }

    /// The one spelling of the block. `from_bytes` reads the block again.
    pub fn to_bytes(&self, alloc: Global) -> Result<Vec<u8>, AllocError>
        ensures spelling { IfOk result (λ bytes. bytes.items ≡ block_bytes self.now) }
        ensures written { IfOk result (λ bytes. block_writing self.now ≡ Some bytes.items) }
        ensures again { IfOk result (λ bytes. reading block block_writing bytes.items ≡ Ok self.now) }
    {
        let mut out = Vec::new(alloc);
        self.put(&mut out)?;
        Ok(out)
    }

    /// Appends what `to_bytes` gives.
    pub fn put(&self, out: &mut Vec<u8>) -> Result<(), AllocError>
        ensures bytes { OnOk result (out.new.items ≡ out.old.items ++ block_bytes self.now) }
        ensures written { block_writing self.now ≡ Some (block_bytes self.now) }
    {
        self.stored.put(out)
    }

    /// The block whose spelling the bytes are. Bytes that are none are damaged at their first item that is incomplete
    /// or malformed, at 0 where the rows that they say are not a block, and otherwise at the first item that differs
    /// from the spelling of these rows.
    pub fn from_bytes(alloc: Global, bytes: &[u8]) -> Result<Block, BlockFault>
        ensures found { IfOk result (λ rows. bytes.now ≡ block_bytes rows) }
        ensures only { (rows : List NumberedRow) → block_writing rows ≡ Some bytes.now
            → AnswersAs bytes.now result (Ok rows) }
        ensures damaged { IfErr result (λ fault. IsPlaceOf fault block block_writing bytes.now) }
        ensures exact { AnswersAs bytes.now result (reading block block_writing bytes.now) }
    {
        match read_exactly::<Items>(alloc, (), bytes) {
            Ok(stored) => Ok(Block { stored }),
            Err(fault) => Err(fault_of(fault)),
        }
    }
}
