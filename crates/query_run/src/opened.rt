//! The blocks of a look that a query needs, opened.
ghost use Rattle.std.specs.Prelude.{◌≡◌, ◌++◌, IfOk, OnOk, flat_map, length};
ghost use Rattle.std.specs.List.{AllByRecursion};
ghost use Rattle.log_model.specs.Core.{parts_of};
ghost use Rattle.block_body.specs.Outlines.{outline_of};
ghost use Rattle.lq_prune.specs.Need.{admits};
ghost use Rattle.lq_prune.specs.Pruning.{IsTextBlock};
ghost use Rattle.lq_prune.specs.Tree.{needed};
ghost use Rattle.part_model.specs.Filling.{blocks_of};
ghost use Rattle.query_run.specs.Opened.{Counts, CountsAtMost, admitted_by};

use column_block::{Block, Open, Steps};
use log_core::Snapshot;
use lq_prune::Need;
use part_file::Part;
use std::alloc::{AllocError, Global};

/// Opens the blocks of a look that the need admits. Each counts as one step.
pub(crate) fn open_admitted<'s, L>(
    alloc: Global,
    need: &mut Need<'_>,
    snapshot: &'s Snapshot<Part>,
    steps: &mut Steps<L>,
) -> Result<Vec<Open<'s>>, AllocError>
    ensures opened { IfOk result (λ opened. opened.items
        ≡ admitted_by (needed need.old) (flat_map blocks_of (parts_of snapshot.now))) }
    ensures texts { OnOk result (AllByRecursion IsTextBlock (flat_map blocks_of (parts_of snapshot.now))) }
    ensures steps { OnOk result (Counts steps.old
        (length (admitted_by (needed need.old) (flat_map blocks_of (parts_of snapshot.now)))) steps.new) }
    ensures few_steps { CountsAtMost steps.old
        (length (admitted_by (needed need.old) (flat_map blocks_of (parts_of snapshot.now)))) steps.new }
{
    let _ = steps.count();
    let mut opened = Vec::new(alloc);
    for part in 0..snapshot.len() {
        open_part(need, snapshot.part(part), steps, &mut opened)?;
    }
    Ok(opened)
}

/// Opens the blocks of one part that the need admits, after others that were opened.
fn open_part<'s, L>(
    need: &mut Need<'_>,
    part: &'s Part,
    steps: &mut Steps<L>,
    opened: &mut Vec<Open<'s>>,
) -> Result<(), AllocError>
    ensures opened { OnOk result (opened.new.items
        ≡ opened.old.items ++ admitted_by (needed need.old) (blocks_of part.now)) }
    ensures texts { OnOk result (AllByRecursion IsTextBlock (blocks_of part.now)) }
    ensures steps { OnOk result
        (Counts steps.old (length (admitted_by (needed need.old) (blocks_of part.now))) steps.new) }
    ensures few_steps { CountsAtMost steps.old (length (admitted_by (needed need.old) (blocks_of part.now))) steps.new }
    ensures need { needed need.new ≡ needed need.old }
{
    let _ = steps.count();
    let alloc = *opened.allocator();
    let blocks = part.blocks();
    for block in blocks {
        block.rules();
        if is_admitted(alloc, need, block)? {
            opened.push(block.open(steps))?;
        }
    }
    Ok(())
}

/// Whether the need admits the block.
fn is_admitted(alloc: Global, need: &mut Need<'_>, block: &Block) -> Result<bool, AllocError>
    ensures admitted { IfOk result (λ is. is ≡ admits (needed need.old) (outline_of block.now)) }
    ensures need { needed need.new ≡ needed need.old }
{
    let head = block.head();
    need.bind(alloc, head.stream())?;
    Ok(need.admits(head))
}
