//! Pipes.
ghost use Rattle.std.specs.Prelude.{◌≡◌};
ghost use Rattle.lq_stats.specs.Partial.{rows};

use crate::records_tests::{copies, shown};
use lq_ast::{SortPipe, StatsPipe, TopPipe, UniqPipe};
use lq_filter::PrepareFault;
use lq_order::{
    Tally, sort_recs, sort_recs_seeded, top_recs, top_recs_seeded, uniq_recs, uniq_recs_seeded,
};
use lq_plain::PlainFault;
use lq_stats::{Partial, Plan, StatFault};
use lq_tuple::HashSeed;
use std::alloc::{AllocError, Global};
use std::slice;
use vl_row::{FieldList, Recs, Text};

pub(crate) fn of_sort(
    alloc: Global,
    seed: HashSeed,
    pipe: &SortPipe,
    records: &[FieldList],
) -> Result<String, AllocError> {
    let plain = lq_plain::sort(alloc, pipe, records)?;
    let fixed = sort_recs(alloc, pipe, copies(alloc, records)?)?;
    let seeded = sort_recs_seeded(alloc, seed, pipe, copies(alloc, records)?)?;
    shown(alloc, &plain, &[fixed, seeded])
}

pub(crate) fn of_uniq(
    alloc: Global,
    seed: HashSeed,
    pipe: &UniqPipe,
    records: &[FieldList],
) -> Result<String, AllocError> {
    let plain = lq_plain::uniq(alloc, pipe, records)?;
    let fixed = uniq_recs(alloc, pipe, copies(alloc, records)?)?;
    let seeded = uniq_recs_seeded(alloc, seed, pipe, copies(alloc, records)?)?;
    let tallied = tally(alloc, pipe.names.as_slice(), records)?.uniq(alloc, pipe)?;
    shown(alloc, &plain, &[fixed, seeded, tallied])
}

pub(crate) fn of_top(
    alloc: Global,
    seed: HashSeed,
    pipe: &TopPipe,
    records: &[FieldList],
) -> Result<String, AllocError> {
    let plain = lq_plain::top(alloc, pipe, records)?;
    let fixed = top_recs(alloc, pipe, copies(alloc, records)?)?;
    let seeded = top_recs_seeded(alloc, seed, pipe, copies(alloc, records)?)?;
    let tallied = tally(alloc, pipe.names.as_slice(), records)?.top(alloc, pipe)?;
    shown(alloc, &plain, &[fixed, seeded, tallied])
}

/// Returns the tally of the records, which come in two pieces.
fn tally<'p>(
    alloc: Global,
    names: &'p [Text],
    records: &[FieldList],
) -> Result<Tally<'p>, AllocError> {
    let (first, others) = records.split_at(records.len() / 2);
    let mut tally = Tally::new(alloc, names);
    tally.add_all(alloc, first)?;
    tally.add_all(alloc, others)?;
    Ok(tally)
}

/// Returns the records, or the fault, by partial statistics and by a plan.
pub(crate) fn of_stats(
    alloc: Global,
    seed: HashSeed,
    pipe: &StatsPipe,
    records: &[FieldList],
) -> Result<String, AllocError> {
    let plain = lq_plain::grouped(alloc, pipe, records);
    let mut nth = 0;
    let plan = Plan::seeded(alloc, seed, pipe, &mut nth);
    match Partial::of(alloc, pipe) {
        Ok(partial) => {
            let by_partial = compared(alloc, &plain, finished(alloc, partial, records))?;
            by_both(alloc, &plain, by_partial, plan, records)
        }
        Err(by_partial) => refused_by_both(alloc, &plain, by_partial, plan),
    }
}

/// Returns what partial statistics answer, if the plan answers the same.
fn by_both(
    alloc: Global,
    plain: &Result<Result<Recs, Text>, PlainFault>,
    by_partial: String,
    plan: Result<Plan, PrepareFault>,
    records: &[FieldList],
) -> Result<String, AllocError> {
    match plan {
        Ok(plan) => {
            let by_plan = compared(alloc, plain, gathered(alloc, &plan, records))?;
            same(alloc, by_partial, by_plan)
        }
        Err(_) => String::from_str(alloc, "differ"),
    }
}

/// Returns the fault of partial statistics, if the plan is refused for the same.
fn refused_by_both(
    alloc: Global,
    plain: &Result<Result<Recs, Text>, PlainFault>,
    by_partial: PrepareFault,
    plan: Result<Plan, PrepareFault>,
) -> Result<String, AllocError> {
    match plan {
        Err(by_plan) if by_plan == by_partial => refused(alloc, plain, by_partial),
        _ => String::from_str(alloc, "differ"),
    }
}

fn same(alloc: Global, some: String, other: String) -> Result<String, AllocError> {
    if some.as_str() == other.as_str() {
        return Ok(some);
    }
    String::from_str(alloc, "differ")
}

/// Returns the records, or the name of the function of which both say that its total is too large.
fn compared(
    alloc: Global,
    plain: &Result<Result<Recs, Text>, PlainFault>,
    shipped: Result<Recs, StatFault>,
) -> Result<String, AllocError> {
    match (plain, &shipped) {
        (Ok(Ok(plain)), Ok(shipped)) => shown(alloc, plain, slice::from_ref(shipped)),
        (Ok(Err(own)), Err(StatFault::Overflow { name })) => named(alloc, own, name),
        _ => String::from_str(alloc, "differ"),
    }
}

fn named(alloc: Global, own: &Text, name: &Text) -> Result<String, AllocError> {
    if own.as_str() != name.as_str() {
        return String::from_str(alloc, "differ");
    }
    format!(in alloc; "Overflow in {}", name.as_str())
}

fn refused(
    alloc: Global,
    plain: &Result<Result<Recs, Text>, PlainFault>,
    fault: PrepareFault,
) -> Result<String, AllocError> {
    match (plain, &fault) {
        (Err(PlainFault::Unreadable), PrepareFault::RegexRefused { nth }) => {
            format!(in alloc; "RegexRefused number {nth}")
        }
        _ => String::from_str(alloc, "differ"),
    }
}

/// Returns what partial statistics make of the records. One record is added alone.
fn finished(alloc: Global, mut partial: Partial, records: &[FieldList]) -> Result<Recs, StatFault>
    requires { rows partial ≡ 0 }
{
    if records.len() > 1000 {
        return Err(StatFault::Memory);
    }
    match records {
        [record] => partial.add(alloc, record)?,
        records => partial.add_all(alloc, records)?,
    }
    partial.finish(alloc)
}

/// Returns what a plan makes of the records, which come in two pieces.
fn gathered(alloc: Global, plan: &Plan, records: &[FieldList]) -> Result<Recs, StatFault> {
    if records.len() > 1000 {
        return Err(StatFault::Memory);
    }
    let (first, others) = records.split_at(records.len() / 2);
    let mut gathered = plan.begin(alloc)?;
    plan.add_all(alloc, &mut gathered, first)?;
    plan.add_all(alloc, &mut gathered, others)?;
    plan.finish(alloc, gathered)
}
