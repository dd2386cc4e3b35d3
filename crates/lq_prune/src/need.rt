//! What a query needs of a block.
ghost use Rattle.std.specs.Prelude.{◌≡◌, IfOk, OnOk};
ghost use Rattle.lq_ast.specs.View.{condition};
ghost use Rattle.lq_filter.specs.Tree.{condition_of};
ghost use Rattle.lq_prune.specs.Bound.{IsBound};
ghost use Rattle.lq_prune.specs.Need.{admits, need_of};
ghost use Rattle.lq_prune.specs.Pruning.{MissesNone};
ghost use Rattle.lq_prune.specs.Tree.{needed};

use crate::admitting::admits;
use crate::binding::bind;
use crate::tree::Tree;
use block_body::Head;
use lq_ast::Query;
use lq_filter::Prepared;
use std::alloc::{AllocError, Global};
use vl_row::Stream;

/// What a query needs of a block. It is bound to a stream before it is asked of the heads of blocks of this stream.
#[derive(Drop)]
pub struct Need<'p> {
    prepared: &'p Prepared,
    tree: Tree,
}

/// Returns what a query needs of a block at the moment `now`, in nanoseconds since 1970. The query is the one that was
/// prepared.
pub fn needs<'p>(
    alloc: Global,
    q: &Query,
    p: &'p Prepared,
    now: i64,
) -> Result<Need<'p>, AllocError>
    requires { condition_of p.now ≡ condition q.now.filter }
    ensures need { IfOk result (λ need. needed need ≡ need_of now (condition q.now.filter)) }
    ensures none_missed { IfOk result (λ _. MissesNone now (condition q.now.filter)) }
{
    let tree = Tree::new(alloc, &q.filter, now)?;
    Ok(Need { prepared: p, tree })
}

impl<'p> Need<'p> {
    /// Asks the selectors of the query of this stream. Their answers are kept until the need is bound to another one.
    pub fn bind(&mut self, alloc: Global, s: &Stream) -> Result<(), AllocError>
        ensures bound { OnOk result (IsBound self.new s.now) }
        ensures same { needed self.new ≡ needed self.old }
    {
        bind(&mut self.tree, alloc, self.prepared, s)
    }

    /// Returns whether a block with this head may have a row that holds. The need is bound to the stream of the block.
    pub fn admits(&self, h: &Head) -> bool
        requires { IsBound self.now h.now.labels }
        ensures { result ≡ admits (needed self.now) h.now }
    {
        admits(&self.tree, h)
    }
}
