//! The pipes that set fields of each record: `extract`, `format`, `len` and `math`.
ghost use Rattle.std.specs.Prelude.{◌≡◌, IfErr, IfOk, Ok, map};
ghost use Rattle.lq_ast.specs.Grouping.{all};
ghost use Rattle.lq_ast.specs.Made.{made};
ghost use Rattle.lq_ast.specs.MakingView.{making};
ghost use Rattle.lq_pipes.specs.Faults.{IsMadeFault};

use crate::fault::PipeFault;
use lq_ast::RowPipe;
use row_pipes::make;
use std::alloc::Global;
use vl_row::Recs;

/// Sets the fields that the pipe makes in each record. `Overflow` comes where a number is not a 64-bit integer: of the
/// first such record.
pub(crate) fn make_all(alloc: Global, pipe: &RowPipe, r: Recs) -> Result<Recs, PipeFault>
    ensures ok { IfOk result (λ records. all (map (made (making pipe.now)) r) ≡ Ok records) }
    ensures fault { IfErr result (IsMadeFault (all (map (made (making pipe.now)) r))) }
{
    let mut records = r.into_vec();
    for record in records.iter_mut() {
        make(alloc, pipe, record)?;
    }
    Ok(Recs::of(records))
}
