//! The rows of a look that match.
ghost use Rattle.std.specs.Prelude.{◌≡◌, ◌<◌, IfErr, IfOk, OnOk, length, map};
ghost use Rattle.log_model.specs.Core.{Stands, parts_of};
ghost use Rattle.log_model.specs.History.{History, rows_of};
ghost use Rattle.lq_ast.specs.Evaluation.{row_limit, rows_that_hold};
ghost use Rattle.lq_ast.specs.Question.{question};
ghost use Rattle.lq_ast.specs.View.{condition};
ghost use Rattle.query_run.specs.Answer.{FailsMatching};
ghost use Rattle.query_run.specs.Opened.{Counts, CountsUntil, admitted};
ghost use Rattle.query_run.specs.Prepared.{IsPrepared};

use crate::asked::Asked;
use crate::fault::SearchFault;
use crate::opened::open_admitted;
use column_block::{OpenRow, Steps};
use log_core::Snapshot;
use lq_prune::{needs, pruning_law};
use matching_rows::matching_rows;
use part_file::Part;
use std::alloc::Global;

/// Returns the rows of a look for which the filter holds, in the order of the history. Opens the blocks that the query
/// needs, each as one step. No row is made: each is lent by its block.
pub(crate) fn rows_matched<'s, L>(
    alloc: Global,
    asked: Asked<'_>,
    snapshot: &'s Snapshot<Part>,
    steps: &mut Steps<L>,
) -> Result<Vec<OpenRow<'s>>, SearchFault>
    requires { IsPrepared asked }
    ensures rows { IfOk result (λ rows. (history : History) → Stands (λ rows. rows) snapshot.now history
        → map (λ row. row.numbered.row) rows.items
        ≡ rows_that_hold (condition asked.entry.query.now.filter) asked.entry.moment (rows_of history)) }
    ensures few { IfOk result (λ rows. length rows.items < row_limit) }
    ensures fault { IfErr result (λ fault. (history : History) → Stands (λ rows. rows) snapshot.now history
        → FailsMatching (rows_that_hold (condition asked.entry.query.now.filter) asked.entry.moment (rows_of history))
        fault) }
    ensures steps { OnOk result (Counts steps.old
        (admitted (question asked.entry.query.now) asked.entry.moment (parts_of snapshot.now)) steps.new) }
    ensures fault_steps { IfErr result (λ fault. CountsUntil fault steps.old
        (admitted (question asked.entry.query.now) asked.entry.moment (parts_of snapshot.now)) steps.new) }
{
    let _ = steps.count();
    pruning_law();
    let mut need = needs(alloc, asked.query, asked.filter, asked.moment)?;
    let opened = open_admitted(alloc, &mut need, snapshot, steps)?;
    Ok(matching_rows(alloc, asked.filter, asked.moment, opened.as_slice())?)
}
