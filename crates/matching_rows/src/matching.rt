//! The rows that match.
ghost use Rattle.std.specs.Prelude.{◌≡◌, ◌<◌, IfErr, IfOk, List, length, map};
ghost use Rattle.std.specs.List.{All};
ghost use Rattle.log_model.specs.History.{Numbered, rows_in};
ghost use Rattle.lq_ast.specs.Evaluation.{row_limit, rows_that_hold};
ghost use Rattle.lq_filter.specs.Tree.{condition_of};
ghost use Rattle.matching_rows.specs.Found.{IsFound, row_there};
ghost use Rattle.matching_rows.specs.Matches.{FailsFor, HaveMatches};

use crate::fault::MatchFault;
use crate::found::{Found, all_found, in_order};
use column_block::{Open, OpenRow};
use lq_filter::Prepared;
use std::alloc::{AllocError, Global};

/// How many rows are too many, if they match.
const ROW_LIMIT: usize = 4_294_967_296;

/// Returns the rows of opened blocks for which the filter holds at the moment `now`, in nanoseconds since 1970, in the
/// order of the history. No row is made: each is lent by its block.
pub fn matching_rows<'o>(
    alloc: Global,
    filter: &Prepared,
    now: i64,
    opened: &[Open<'o>],
) -> Result<Vec<OpenRow<'o>>, MatchFault>
    ensures rows { IfOk result (λ rows. (history : List Numbered)
        → HaveMatches (condition_of filter.now) now opened.now history
        → map (λ row. row.numbered.row) rows.items
        ≡ rows_that_hold (condition_of filter.now) now (rows_in history)) }
    ensures few { IfOk result (λ rows. length rows.items < row_limit) }
    ensures fault { IfErr result (λ fault. (history : List Numbered)
        → HaveMatches (condition_of filter.now) now opened.now history
        → FailsFor (length (rows_that_hold (condition_of filter.now) now (rows_in history))) fault) }
{
    let found = in_order(all_found(alloc, filter, now, opened)?);
    if found.len() >= ROW_LIMIT {
        return Err(MatchFault::ManyRows);
    }
    let rows = rows_found(alloc, opened, found.as_slice())?;
    Ok(rows)
}

/// Returns the rows that stand there, which are lent.
fn rows_found<'o>(
    alloc: Global,
    opened: &[Open<'o>],
    found: &[Found],
) -> Result<Vec<OpenRow<'o>>, AllocError>
    requires { All (IsFound opened.now) found.now }
    ensures { IfOk result (λ rows. map (λ row. row.numbered) rows.items ≡ map (row_there opened.now) found.now) }
{
    let mut rows = Vec::with_capacity(alloc, found.len())?;
    for one in found {
        rows.push(row_found(opened, one))?;
    }
    Ok(rows)
}

/// Returns the row that stands there.
fn row_found<'o>(opened: &[Open<'o>], found: &Found) -> OpenRow<'o>
    requires { IsFound opened.now found.now }
    ensures { result.numbered ≡ row_there opened.now found.now }
{
    opened[found.block].lent(found.row)
}
