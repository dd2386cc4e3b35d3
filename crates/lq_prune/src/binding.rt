//! Binds the selectors of a need to a stream.
ghost use Rattle.std.specs.Prelude.{◌≡◌, OnOk, map, true};
ghost use Rattle.lq_prune.specs.Bound.{are_bound, is_bound};
ghost use Rattle.lq_prune.specs.Tree.{needed_of};

use crate::tree::Tree;
use lq_filter::Prepared;
use std::alloc::{AllocError, Global};
use vl_row::Stream;

/// Asks each selector of a stream.
#[cycle(binding)]
pub(crate) fn bind(
    tree: &mut Tree,
    alloc: Global,
    prepared: &Prepared,
    stream: &Stream,
) -> Result<(), AllocError>
    ensures bound { OnOk result (is_bound stream.now tree.new ≡ true) }
    ensures same { needed_of tree.new ≡ needed_of tree.old }
{
    match tree {
        Tree::Stream(selection) => selection.bind(alloc, prepared, stream),
        Tree::All(trees) => bind_all(trees, alloc, prepared, stream),
        Tree::Any(trees) => bind_all(trees, alloc, prepared, stream),
        _ => Ok(()),
    }
}

#[cycle(binding)]
fn bind_all(
    trees: &mut Vec<Tree>,
    alloc: Global,
    prepared: &Prepared,
    stream: &Stream,
) -> Result<(), AllocError>
    ensures bound { OnOk result (are_bound stream.now trees.new.items ≡ true) }
    ensures same { map needed_of trees.new.items ≡ map needed_of trees.old.items }
{
    for i in 0..trees.len() {
        bind(&mut trees[i], alloc, prepared, stream)?;
    }
    Ok(())
}
