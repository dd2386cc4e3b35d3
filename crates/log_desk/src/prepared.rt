//! Batches that are ready to be inserted.
ghost use Rattle.std.specs.Prelude.{◌≡◌, IfOk};
ghost use Rattle.std.specs.Arc.{arc_value};
ghost use Rattle.std.specs.List.Sorted.{IsPermutation};
ghost use Rattle.log_model.specs.History.{AreBatch, numbered_in};

use part_file::Part;
use std::alloc::{AllocError, Global};
use std::marker::Model;
use std::sync::Arc;
use vl_row::Batch;

/// A batch in the form in which the desk holds it: the part that has its rows in blocks. So all work on its rows is
/// done before a turn is taken, and the rows themselves can be dropped before.
///
/// A contract sees it as the batch.
#[derive(Drop)]
pub struct PreparedBatch {
    pub(crate) part: Arc<Part>,
}

impl Model for PreparedBatch {
    ghost use Rattle.std.specs.Arc.{arc_value};
    ghost use Rattle.log_model.specs.History.{AreBatch};
    ghost use Rattle.log_model.specs.Row.{Batch as Rows};
    ghost use Rattle.log_desk.specs.Prepared.{batch_in};

    ghost Value = { Rows };

    ghost view = { λ p. batch_in (arc_value p.part) };

    ghost invariant = { λ p. AreBatch (arc_value p.part) };
}

impl PreparedBatch {
    /// Makes the part of a batch, in a box of its own.
    pub fn of(alloc: Global, batch: &Batch) -> Result<PreparedBatch, AllocError>
        ensures { IfOk result (λ prepared. prepared ≡ batch.now) }
    {
        let part = boxed_part(alloc, batch)?;
        Ok(PreparedBatch { part })
    }
}

/// Makes the part of a batch, in its shared box.
fn boxed_part(alloc: Global, batch: &Batch) -> Result<Arc<Part>, AllocError>
    ensures same { IfOk result (λ part. IsPermutation (arc_value part) (numbered_in 0 batch.now)) }
    ensures whole { IfOk result (λ part. AreBatch (arc_value part)) }
{
    let part = Part::of_batch(alloc, batch)?;
    Ok(Arc::new(alloc, part)?)
}
