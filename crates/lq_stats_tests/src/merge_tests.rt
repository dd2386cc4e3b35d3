//! Statistics of pieces, merged.
ghost use Rattle.std.specs.Prelude.{◌≤◌, IfOk, length};
ghost use Rattle.lq_stats.specs.Partial.{rows};
ghost use Rattle.lq_stats.specs.Plan.{gathered_rows};

use crate::notation_tests::{pipe_of, record_of};
use lq_ast::StatsPipe;
use lq_stats::{Gathered, Partial, Plan, StatFault};
use lq_tuple::HashSeed;
use std::alloc::{AllocError, Global};
use vl_row::{FieldList, Recs};

/// Returns the answer to a case.
pub fn answer(alloc: Global, case: &str) -> Result<String, AllocError> {
    let mut parts = case.split('\t');
    let pipe = pipe_of(alloc, parts.next().unwrap_or(""))?;
    let mut records = Vec::new(alloc);
    for part in parts {
        records.push(record_of(alloc, part)?)?;
    }
    let records = records.as_slice();
    let whole = shown(alloc, of_all(alloc, &pipe, records))?;
    for place in 0..=records.len() {
        let (before, behind) = records.split_at(place);
        if !are_same(alloc, &pipe, before, behind, whole.as_str())? {
            return format!(in alloc; "differ at {place}");
        }
    }
    Ok(whole)
}

/// Returns whether two pieces that are merged make these records.
fn are_same(
    alloc: Global,
    pipe: &StatsPipe,
    some: &[FieldList],
    others: &[FieldList],
    whole: &str,
) -> Result<bool, AllocError> {
    let by_partial = shown(alloc, merged(alloc, pipe, some, others))?;
    let by_plan = shown(alloc, joined(alloc, pipe, some, others))?;
    let turned = shown(alloc, joined(alloc, pipe, others, some))?;
    Ok(by_partial.as_str() == whole && by_plan.as_str() == whole && turned.as_str() == whole)
}

fn of_all(alloc: Global, pipe: &StatsPipe, records: &[FieldList]) -> Result<Recs, StatFault> {
    partial_of(alloc, pipe, records)?.finish(alloc)
}

fn merged(
    alloc: Global,
    pipe: &StatsPipe,
    some: &[FieldList],
    others: &[FieldList],
) -> Result<Recs, StatFault> {
    let mut partial = partial_of(alloc, pipe, some)?;
    partial.merge(alloc, partial_of(alloc, pipe, others)?)?;
    partial.finish(alloc)
}

/// Returns the partial statistics of some records. Those of more than 1,000 are not made.
fn partial_of(alloc: Global, pipe: &StatsPipe, records: &[FieldList]) -> Result<Partial, StatFault>
    ensures { IfOk result (λ partial. rows partial ≤ 1000) }
{
    if records.len() > 1000 {
        return Err(StatFault::Memory);
    }
    let Ok(mut partial) = Partial::of(alloc, pipe) else {
        return Err(StatFault::Memory);
    };
    partial.add_all(alloc, records)?;
    Ok(partial)
}

fn joined(
    alloc: Global,
    pipe: &StatsPipe,
    some: &[FieldList],
    others: &[FieldList],
) -> Result<Recs, StatFault> {
    let mut nth = 0;
    let Ok(plan) = Plan::seeded(alloc, HashSeed::fixed(), pipe, &mut nth) else {
        return Err(StatFault::Memory);
    };
    let mut gathered = gathered_of(alloc, &plan, some)?;
    plan.merge(alloc, &mut gathered, gathered_of(alloc, &plan, others)?)?;
    plan.finish(alloc, gathered)
}

/// Returns what a plan gathers of some records. Those of more than 1,000 are not gathered.
fn gathered_of(alloc: Global, plan: &Plan, records: &[FieldList]) -> Result<Gathered, StatFault>
    ensures { IfOk result (λ gathered. gathered_rows gathered ≤ 1000) }
{
    if records.len() > 1000 {
        return Err(StatFault::Memory);
    }
    let mut gathered = plan.begin(alloc)?;
    plan.add_all(alloc, &mut gathered, records)?;
    Ok(gathered)
}

/// Returns the records with tabs between them, or the fault.
fn shown(alloc: Global, made: Result<Recs, StatFault>) -> Result<String, AllocError> {
    let made = match made {
        Ok(made) => made,
        Err(StatFault::Overflow { name }) => {
            return format!(in alloc; "Overflow in {}", name.as_str());
        }
        Err(StatFault::Memory) => return String::from_str(alloc, "Memory"),
    };
    let mut text = String::new(alloc);
    let mut ahead = "";
    for record in made.as_slice() {
        text.push_str(ahead)?;
        push_record(&mut text, record)?;
        ahead = "\t";
    }
    Ok(text)
}

fn push_record(text: &mut String, record: &FieldList) -> Result<(), AllocError> {
    let mut ahead = "";
    for field in record.as_slice() {
        write!(text, "{ahead}{}={}", field.name(), field.value())?;
        ahead = "&";
    }
    Ok(())
}
