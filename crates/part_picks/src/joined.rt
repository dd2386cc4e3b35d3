//! Parts made of picked rows.

ghost use Rattle.std.specs.Prelude.{◌≡◌, ◌++◌, IfOk, OnOk};
ghost use Rattle.std.specs.List.{AllByRecursion};
ghost use Rattle.block_format.specs.Rows.{IsBlock};
ghost use Rattle.part_model.specs.Filling.{rows_in_blocks};
ghost use Rattle.part_model.specs.Part.{IsPart};

use crate::filling::filled;
use crate::pick::Pick;
use column_block::Block;
use part_file::Part;
use std::alloc::{AllocError, Global};

/// All rows of the blocks.
pub fn picks_of<'a>(alloc: Global, blocks: &'a [Block]) -> Result<Vec<Pick<'a>>, AllocError>
    requires { AllByRecursion IsBlock blocks.now }
    ensures { IfOk result (λ picks. picks.items ≡ blocks.now) }
{
    let mut picks = Vec::with_capacity(alloc, blocks.len())?;
    for block in blocks {
        picks.push(Pick::whole(block))?;
    }
    Ok(picks)
}

/// The part of these rows, which are in order.
pub fn part_of(alloc: Global, picks: &[Pick<'_>]) -> Result<Part, AllocError>
    requires { IsPart (rows_in_blocks picks.now) }
    ensures { IfOk result (λ part. part ≡ rows_in_blocks picks.now) }
{
    let blocks = filled(alloc, picks)?;
    let part = Part::of_blocks(blocks)?;
    Ok(part)
}
