//! The answer to a query over what the shelf held.
ghost use Rattle.std.specs.Prelude.{◌≡◌, ◌<◌, IfErr, IfOk, Ok, OnOk, flat_map, length, map};
ghost use Rattle.std.specs.List.{AllByRecursion};
ghost use Rattle.log_model.specs.Core.{Stands, parts_of};
ghost use Rattle.log_model.specs.History.{History, rows_of};
ghost use Rattle.log_model.specs.Print.{lines_text};
ghost use Rattle.log_model.specs.Row.{record_of};
ghost use Rattle.lq_ast.specs.Evaluation.{evaluate, records, row_limit};
ghost use Rattle.lq_ast.specs.Patterns.{CanBeRead, all_patterns, patterns_of_stage};
ghost use Rattle.lq_ast.specs.PipeView.{stage};
ghost use Rattle.lq_ast.specs.Pipes.{all_piped};
ghost use Rattle.lq_ast.specs.Question.{question};
ghost use Rattle.query_run.specs.Answer.{FailsOver, FailsPiped, FailsRun, IsAnswerOver, PrintsPiped};
ghost use Rattle.query_run.specs.Opened.{Counts, CountsUntil, CountsUntilFault, admitted};

use crate::asked::Asked;
use crate::fault::{RunFault, SearchFault};
use crate::matched::rows_matched;
use crate::search::Search;
use column_block::{OpenRow, Steps};
use log_core::Snapshot;
use lq_ast::{Pipe, Query};
use lq_filter::prepare;
use lq_pipes::{PipeFault, Printer, apply_rows, lines};
use lq_tuple::HashSeed;
use part_file::Part;
use std::alloc::{AllocError, Global};
use std::random::RandomSource;
use vl_row::{Recs, Text};

/// Returns the records that a query finds at the moment `now`, in nanoseconds since 1970, over what a look has. Opens
/// the blocks that the query needs, each as one step of the counter. Hashes with a random seed.
pub fn run_query<R: RandomSource, L>(
    rt: &R,
    alloc: Global,
    snapshot: &Snapshot<Part>,
    query: &Query,
    now: i64,
    steps: &mut Steps<L>,
) -> Result<Recs, RunFault>
    ensures found { IfOk result (λ found. (history : History) → Stands (λ rows. rows) snapshot.now history
        → evaluate (question query.now) now (rows_of history) ≡ records found) }
    ensures fault { IfErr result (λ fault. (history : History) → Stands (λ rows. rows) snapshot.now history
        → FailsRun (question query.now) now (rows_of history) fault) }
    ensures readable { IfOk result (λ found. AllByRecursion CanBeRead (all_patterns (question query.now))) }
    ensures steps { OnOk result (Counts steps.old
        (admitted (question query.now) now (parts_of snapshot.now)) steps.new) }
    ensures fault_steps { IfErr result (λ fault.
        CountsUntilFault fault steps.old (admitted (question query.now) now (parts_of snapshot.now)) steps.new) }
{
    let _ = steps.count();
    let filter = prepare(alloc, query)?;
    let asked = Asked {
        query,
        filter: &filter,
        moment: now,
    };
    let rows = rows_matched(alloc, asked, snapshot, steps)?;
    let lent = lent_rows(alloc, rows.as_slice())?;
    Ok(made_of(alloc, HashSeed::random(rt), query.pipes.as_slice(), lent)?)
}

/// Returns the answer to a query at the moment `now`, in nanoseconds since 1970: the lines of the records that
/// [`run_query`] finds. Opens the same blocks.
pub fn answer<R: RandomSource, L>(
    rt: &R,
    alloc: Global,
    snapshot: &Snapshot<Part>,
    search: &Search,
    now: i64,
    steps: &mut Steps<L>,
) -> Result<Text, SearchFault>
    ensures answered { IfOk result (λ text. (history : History) → Stands (λ rows. rows) snapshot.now history
        → IsAnswerOver (question search.now) now (rows_of history) text) }
    ensures fault { IfErr result (λ fault. (history : History) → Stands (λ rows. rows) snapshot.now history
        → FailsOver (question search.now) now (rows_of history) fault) }
    ensures steps { OnOk result (Counts steps.old
        (admitted (question search.now) now (parts_of snapshot.now)) steps.new) }
    ensures fault_steps { IfErr result (λ fault. CountsUntil fault steps.old
        (admitted (question search.now) now (parts_of snapshot.now)) steps.new) }
{
    let _ = steps.count();
    let query = search.query();
    let asked = Asked {
        query,
        filter: search.filter(),
        moment: now,
    };
    let rows = rows_matched(alloc, asked, snapshot, steps)?;
    let lent = lent_rows(alloc, rows.as_slice())?;
    piped_lines(alloc, HashSeed::random(rt), query.pipes.as_slice(), lent)
}

/// Returns the rows as they are lent to pipes.
fn lent_rows<'r, 's>(
    alloc: Global,
    rows: &'r [OpenRow<'s>],
) -> Result<Vec<&'r OpenRow<'s>>, AllocError>
    ensures { IfOk result (λ lent. map (λ row. row.now) lent.items ≡ rows.now) }
{
    let mut lent = Vec::with_capacity(alloc, rows.len())?;
    for row in rows {
        lent.push(row)?;
    }
    Ok(lent)
}

/// Returns the lines of what the pipes make of the records of these rows.
fn piped_lines(
    alloc: Global,
    seed: HashSeed,
    pipes: &[Pipe],
    rows: Vec<&OpenRow<'_>>,
) -> Result<Text, SearchFault>
    requires few { length rows.items < row_limit }
    requires readable { AllByRecursion CanBeRead (flat_map patterns_of_stage (map stage pipes.now)) }
    ensures made { IfOk result
        (PrintsPiped (map stage pipes.now) (map (λ row. record_of row.now.numbered.row) rows.entry.items)) }
    ensures fault { IfErr result
        (FailsPiped (map stage pipes.now) (map (λ row. record_of row.now.numbered.row) rows.entry.items)) }
{
    if pipes.is_empty() {
        return Ok(lines_of(alloc, rows.as_slice())?);
    }
    let made = made_of(alloc, seed, pipes, rows)?;
    let mut text = Text::new();
    lines(alloc, &made, &mut text)?;
    Ok(text)
}

/// Returns the lines of the records of these rows, which are printed without being made.
fn lines_of(alloc: Global, rows: &[&OpenRow<'_>]) -> Result<Text, AllocError>
    ensures { IfOk result (λ text. text ≡ lines_text (map (λ row. record_of row.now.numbered.row) rows.now)) }
{
    let mut printer = Printer::new(alloc)?;
    let mut text = Text::new();
    for row in rows {
        printer.write_row(alloc, *row, &mut text)?;
    }
    Ok(text)
}

/// Returns what the pipes make of the records of these rows.
fn made_of(
    alloc: Global,
    seed: HashSeed,
    pipes: &[Pipe],
    rows: Vec<&OpenRow<'_>>,
) -> Result<Recs, SearchFault>
    requires few { length rows.items < row_limit }
    requires readable { AllByRecursion CanBeRead (flat_map patterns_of_stage (map stage pipes.now)) }
    ensures made { IfOk result (λ made.
        all_piped (map stage pipes.now) (map (λ row. record_of row.now.numbered.row) rows.entry.items) ≡ Ok made) }
    ensures fault { IfErr result
        (FailsPiped (map stage pipes.now) (map (λ row. record_of row.now.numbered.row) rows.entry.items)) }
{
    match apply_rows(alloc, seed, pipes, rows) {
        Ok(made) => Ok(made),
        Err(PipeFault::RegexRefused { .. }) => unreachable!(),
        Err(PipeFault::Overflow { name }) => Err(SearchFault::Overflow { name }),
        Err(PipeFault::Memory) => Err(SearchFault::Memory),
    }
}
