//! Parts.

ghost use Rattle.std.specs.Prelude.{◌≡◌, ◌++◌, IfErr, IfOk, List, Ok, OnOk, Err, Some, ℕ};
ghost use Rattle.std.specs.List.Sorted.{IsPermutation};
ghost use Rattle.byte_format.specs.Spelling.{reading};
ghost use Rattle.log_model.specs.History.{AreBatch, Numbered as NumberedRow, numbered_in};
ghost use Rattle.part_model.specs.Filling.{AreFilled, rows_in_blocks};
ghost use Rattle.part_model.specs.Part.{ArePartRows, IsPart};
ghost use Rattle.part_file.specs.Format.{part, part_bytes, part_writing};
ghost use Rattle.part_file.specs.Version.{HasOtherVersion};
ghost use Rattle.part_file.specs.Answers.{AnswersAs, IsFaultOf};

use crate::by_blocks::read_part;
use crate::fault::{PartFault, fault_of};
use crate::filled::{batch_rows, count_of, filled, shared, weight_of};
use crate::put::{put_blocks, put_head};
use crate::take::version_of;
use block_model::{NumberedRef, lend};
use column_block::Block;
use part_model::sorted;
use std::alloc::{AllocError, Global};
use std::marker::Model;
use vl_row::{Batch, Numbered};

/// Rows of any streams, each with its number, which never change but for the number of their batch. They are held in
/// blocks, in order of their streams, and within a stream in order of time, batch and place.
///
/// A contract sees it as the list of its rows with their numbers.
#[derive(Drop)]
pub struct Part {
    pub(crate) blocks: Vec<Block>,
    pub(crate) rows: u64,
    pub(crate) weight: u64,
}

impl Model for Part {
    ghost use Rattle.std.specs.Prelude.{◌≡◌, List, length};
    ghost use Rattle.log_model.specs.History.{Numbered as NumberedRow};
    ghost use Rattle.part_model.specs.Filling.{rows_in_blocks};
    ghost use Rattle.part_file.specs.Holds.{HoldsPart};

    ghost Value = { List NumberedRow };

    ghost view = { λ p. rows_in_blocks p.blocks.items };

    ghost invariant = { λ p. HoldsPart p.blocks.items p.rows p.weight };
}

impl Part {
    /// The rows of a batch, under the batch number 0.
    pub fn of_batch(alloc: Global, batch: &Batch) -> Result<Part, AllocError>
        ensures same { IfOk result (λ part. IsPermutation part (numbered_in 0 batch.now)) }
        ensures whole { IfOk result AreBatch }
    {
        let rows = batch_rows(alloc, batch)?;
        let part = Part::of_lent(alloc, rows)?;
        Ok(part)
    }

    /// These rows. There is at least one, each has a number of its own, and together they weigh at most 67,108,864
    /// bytes.
    pub fn try_of(alloc: Global, rows: Vec<Numbered>) -> Result<Part, AllocError>
        requires { ArePartRows rows.items }
        ensures { IfOk result (λ part. IsPermutation part rows.items) }
    {
        let lent = lend(alloc, rows.as_slice())?;
        let part = Part::of_lent(alloc, lent)?;
        Ok(part)
    }

    /// These rows, which are lent.
    pub fn of_lent(alloc: Global, rows: Vec<NumberedRef<'_>>) -> Result<Part, AllocError>
        requires { ArePartRows rows.items }
        ensures { IfOk result (λ part. IsPermutation part rows.entry.items) }
    {
        let rows = sorted(rows)?;
        let part = Part::of_sorted(alloc, rows.as_slice())?;
        Ok(part)
    }

    fn of_sorted(alloc: Global, rows: &[NumberedRef<'_>]) -> Result<Part, AllocError>
        requires { IsPart rows.now }
        ensures { IfOk result (λ part. part ≡ rows.now) }
    {
        let blocks = filled(alloc, rows)?;
        let weight = weight_of(blocks.as_slice());
        Ok(Part {
            blocks,
            rows: rows.len() as u64,
            weight,
        })
    }

    /// A part of these blocks, which are filled with its rows.
    pub fn of_blocks(blocks: Vec<Block>) -> Result<Part, AllocError>
        requires part { IsPart (rows_in_blocks blocks.items) }
        requires filled { AreFilled blocks.items (rows_in_blocks blocks.items) }
        ensures { IfOk result (λ part. part ≡ rows_in_blocks blocks.items) }
    {
        let rows = count_of(blocks.as_slice())?;
        let weight = weight_of(blocks.as_slice());
        Ok(Part {
            blocks,
            rows,
            weight,
        })
    }

    /// An equal part, which shares its memory.
    pub fn share(&self, alloc: Global) -> Result<Part, AllocError>
        ensures { IfOk result (λ part. part ≡ self.now) }
    {
        let blocks = shared(alloc, self.blocks.as_slice())?;
        Ok(Part {
            blocks,
            rows: self.rows,
            weight: self.weight,
        })
    }

    /// The blocks, each filled before the next one began.
    pub fn blocks(&self) -> &[Block]
        ensures rows { rows_in_blocks result.now ≡ self.now }
        ensures filled { AreFilled result.now self.now }
    {
        self.blocks.as_slice()
    }

    /// Says what the rows keep. This does nothing.
    pub fn rules(&self)
        ensures { IsPart self.now }
    {
        let _ = &self.blocks;
    }

    /// The one spelling of the part. `from_bytes` reads the part again.
    pub fn to_bytes(&self, alloc: Global) -> Result<Vec<u8>, AllocError>
        ensures spelling { IfOk result (λ bytes. bytes.items ≡ part_bytes self.now) }
        ensures written { IfOk result (λ bytes. part_writing self.now ≡ Some bytes.items) }
        ensures again { IfOk result (λ bytes. reading part part_writing bytes.items ≡ Ok self.now) }
    {
        let mut out = Vec::new(alloc);
        self.put(&mut out)?;
        Ok(out)
    }

    /// Appends what `to_bytes` gives.
    pub(crate) fn put(&self, out: &mut Vec<u8>) -> Result<(), AllocError>
        ensures bytes { OnOk result (out.new.items ≡ out.old.items ++ part_bytes self.now) }
        ensures written { OnOk result (part_writing self.now ≡ Some (part_bytes self.now)) }
    {
        put_head(out)?;
        put_blocks(out, self.blocks.as_slice())?;
        Ok(())
    }

    /// The part whose spelling the bytes are. Bytes that are none are damaged at their first item that is incomplete
    /// or malformed, at 0 where the rows that they say are not a part, and otherwise at the first item that differs
    /// from the spelling of these rows. Another version is named in place of the damage.
    pub fn from_bytes(alloc: Global, bytes: &[u8]) -> Result<Part, PartFault>
        ensures found { IfOk result (λ rows. bytes.now ≡ part_bytes rows) }
        ensures only { (rows : List NumberedRow) → part_writing rows ≡ Some bytes.now
            → AnswersAs bytes.now result (Ok rows) }
        ensures damaged { IfErr result (λ fault. IsFaultOf fault bytes.now) }
        ensures exact { AnswersAs bytes.now result (reading part part_writing bytes.now) }
        ensures version { (found : ℕ) → HasOtherVersion bytes.now found → result ≡ Err (PartFault.Version found) }
    {
        if let Some(found) = version_of(bytes) {
            return Err(PartFault::Version { found });
        }
        match read_part(alloc, bytes) {
            Ok(part) => Ok(part),
            Err(fault) => Err(fault_of(fault)),
        }
    }
}
