//! What pipes make of rows.
ghost use Rattle.std.specs.Prelude.{◌≡◌, ◌<◌, ◌^◌, IfErr, IfOk, Ok, flat_map, length, map, true};
ghost use Rattle.std.specs.List.{AllByRecursion};
ghost use Rattle.log_model.specs.Field.{IsFieldList};
ghost use Rattle.log_model.specs.Row.{record_of};
ghost use Rattle.lq_ast.specs.Grouping.{grouped};
ghost use Rattle.lq_ast.specs.Patterns.{CanBeRead, patterns_of_stage};
ghost use Rattle.lq_ast.specs.PipeView.{grouping, stage};
ghost use Rattle.lq_ast.specs.Pipes.{all_piped, piped};
ghost use Rattle.lq_order.specs.Tally.{Tallies};
ghost use Rattle.lq_pipes.specs.Faults.{IsMadeFault, IsPipeFault};
ghost use Rattle.lq_pipes.specs.RowRecords.{records_left};
ghost use Rattle.lq_pipes.specs.Steps.{IsPlanned, is_plain, stage_of};
ghost use Rattle.lq_stats.specs.Plan.{IsPlanOf};

use crate::fault::PipeFault;
use crate::kept::keep;
use crate::needed::Needs;
use crate::passing::pass_rows;
use crate::pipes::{run_all, steps};
use crate::projector::record_law;
use crate::row_records::RowRecords;
use crate::step::{Step, run_plain};
use lent_row::LentRow;
use lq_ast::{Pipe, StatsPipe};
use lq_order::Tally;
use lq_stats::Plan;
use lq_tuple::HashSeed;
use std::alloc::{AllocError, Global};
use vl_row::{Recs, Text};

/// Returns the records that the pipes make of those of these rows, with the faults of `apply`. Hashes with the given
/// seed. Records are made late: `limit`, `offset` and `sort` that come first run over rows, a `stats`, `uniq` or `top`
/// after them takes a few records at a time, and records have only the fields that matter to the pipes.
pub fn apply_rows<R: LentRow + Copy + Drop>(
    alloc: Global,
    seed: HashSeed,
    pipes: &[Pipe],
    rows: Vec<R>,
) -> Result<Recs, PipeFault>
    requires few { length rows.items < 2 ^ 32 }
    ensures ok { IfOk result (λ made.
        all_piped (map stage pipes.now) (map (λ row. record_of (R.event row)) rows.items) ≡ Ok made) }
    ensures readable { IfOk result (λ _. AllByRecursion CanBeRead (flat_map patterns_of_stage (map stage pipes.now))) }
    ensures fault { IfErr result (IsPipeFault (map stage pipes.now) (map (λ row. record_of (R.event row)) rows.items)) }
{
    let mut rows = rows;
    let pipes = pass_rows(alloc, seed, pipes, &mut rows)?;
    let steps = steps(alloc, seed, pipes)?;
    apply_steps(alloc, seed, pipes, steps.as_slice(), rows.as_slice())
}

/// Returns the records that the pipes of these steps make of those of the rows.
fn apply_steps<R: LentRow>(
    alloc: Global,
    seed: HashSeed,
    pipes: &[Pipe],
    steps: &[Step<'_>],
    rows: &[R],
) -> Result<Recs, PipeFault>
    requires same { map stage_of steps.now ≡ map stage pipes.now }
    requires planned { AllByRecursion IsPlanned steps.now }
    requires few { length rows.now < 2 ^ 32 }
    ensures ok { IfOk result (λ made.
        all_piped (map stage pipes.now) (map (λ row. record_of (R.event row)) rows.now) ≡ Ok made) }
    ensures fault { IfErr result (IsMadeFault
        (all_piped (map stage pipes.now) (map (λ row. record_of (R.event row)) rows.now))) }
{
    rows_law(rows);
    let needs = Needs::of(alloc, pipes)?;
    let records = RowRecords::new(alloc, &needs, rows)?;
    apply_steps_to_rows(alloc, seed, steps, records)
}

/// That the records of rows keep the rules of fields. It does nothing: its contract is the law.
fn rows_law<R: LentRow>(rows: &[R])
    ensures { AllByRecursion IsFieldList (map (λ row. record_of (R.event row)) rows.now) }
{
    for row in rows {
        record_law(row);
    }
}

/// Returns the records that these steps make of those of rows.
fn apply_steps_to_rows<R: LentRow>(
    alloc: Global,
    seed: HashSeed,
    steps: &[Step<'_>],
    rows: RowRecords<'_, R>,
) -> Result<Recs, PipeFault>
    requires few { length (records_left R.event rows) < 2 ^ 32 }
    requires planned { AllByRecursion IsPlanned steps.now }
    ensures ok { IfOk result (λ made. all_piped (map stage_of steps.now) (records_left R.event rows.entry) ≡ Ok made) }
    ensures fault { IfErr result (IsMadeFault (all_piped (map stage_of steps.now) (records_left R.event rows.entry))) }
{
    match steps.split_first() {
        Some((first, later)) => {
            let records = first.apply_to_rows(alloc, seed, rows)?;
            run_all(alloc, seed, later, records)
        }
        None => Ok(rows.rest(alloc)?),
    }
}

impl<'p> Step<'p> {
    /// Returns the records that the pipe makes of those of rows. Hashes with the given seed.
    fn apply_to_rows<R: LentRow>(
        &self,
        alloc: Global,
        seed: HashSeed,
        rows: RowRecords<'_, R>,
    ) -> Result<Recs, PipeFault>
        requires planned { IsPlanned self.now }
        requires few { length (records_left R.event rows) < 2 ^ 32 }
        ensures ok { IfOk result (λ made. piped (stage_of self.now) (records_left R.event rows.entry) ≡ Ok made) }
        ensures fault { IfErr result (IsMadeFault (piped (stage_of self.now) (records_left R.event rows.entry))) }
    {
        match self {
            Step::Plain(pipe) => apply_plain_to_rows(alloc, seed, pipe, rows),
            Step::Stats(stats, plan) => statistics_of_rows(alloc, stats, plan, rows),
            Step::Keep(asked) => Ok(keep(alloc, asked, rows.rest(alloc)?)?),
        }
    }
}

/// Returns the records that a pipe which is neither `stats` nor `filter` makes of those of rows. Hashes with the given
/// seed.
fn apply_plain_to_rows<R: LentRow>(
    alloc: Global,
    seed: HashSeed,
    pipe: &Pipe,
    rows: RowRecords<'_, R>,
) -> Result<Recs, PipeFault>
    requires plain { is_plain (stage pipe.now) ≡ true }
    requires few { length (records_left R.event rows) < 2 ^ 32 }
    ensures ok { IfOk result (λ made. piped (stage pipe.now) (records_left R.event rows.entry) ≡ Ok made) }
    ensures fault { IfErr result (IsMadeFault (piped (stage pipe.now) (records_left R.event rows.entry))) }
{
    match pipe {
        Pipe::Uniq(uniq) => {
            let tally = tally_of_rows(alloc, seed, uniq.names.as_slice(), rows)?;
            Ok(tally.uniq(alloc, uniq)?)
        }
        Pipe::Top(top) => {
            let tally = tally_of_rows(alloc, seed, top.names.as_slice(), rows)?;
            Ok(tally.top(alloc, top)?)
        }
        _ => run_plain(alloc, seed, pipe, rows.rest(alloc)?),
    }
}

/// Returns the statistics of the records of rows.
fn statistics_of_rows<R: LentRow>(
    alloc: Global,
    pipe: &StatsPipe,
    plan: &Plan,
    rows: RowRecords<'_, R>,
) -> Result<Recs, PipeFault>
    requires planned { IsPlanOf plan.now (grouping pipe.now) }
    requires few { length (records_left R.event rows) < 2 ^ 32 }
    ensures ok { IfOk result (λ made. grouped (grouping pipe.now) (records_left R.event rows.entry) ≡ Ok made) }
    ensures fault { IfErr result (IsMadeFault (grouped (grouping pipe.now) (records_left R.event rows.entry))) }
{
    let mut gathered = plan.begin(alloc)?;
    let mut rows = rows;
    while let Some(records) = rows.next(alloc)? {
        plan.add_all(alloc, &mut gathered, records.as_slice())?;
    }
    let made = plan.finish(alloc, gathered)?;
    Ok(made)
}

/// Returns how many of the records of rows have each tuple of these fields.
fn tally_of_rows<'p, R: LentRow>(
    alloc: Global,
    seed: HashSeed,
    names: &'p [Text],
    rows: RowRecords<'_, R>,
) -> Result<Tally<'p>, AllocError>
    requires few { length (records_left R.event rows) < 2 ^ 32 }
    ensures { IfOk result (λ tally. Tallies tally names.entry.now (records_left R.event rows.entry)) }
{
    let mut tally = Tally::seeded(alloc, seed, names);
    let mut rows = rows;
    while let Some(records) = rows.next(alloc)? {
        tally.add_all(alloc, records.as_slice())?;
    }
    Ok(tally)
}
