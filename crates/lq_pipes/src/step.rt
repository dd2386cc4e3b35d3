//! One pipe after another.
ghost use Rattle.std.specs.Prelude.{◌≡◌, ◌+◌, ◌<◌, ◌^◌, IfErr, IfOk, IsOk, Ok, length, true};
ghost use Rattle.std.specs.List.{AllByRecursion};
ghost use Rattle.lq_ast.specs.Patterns.{CanBeRead, patterns_of_stage};
ghost use Rattle.lq_ast.specs.PipeView.{grouping, stage};
ghost use Rattle.lq_ast.specs.Pipes.{piped};
ghost use Rattle.lq_filter.specs.Refusal.{IsRefusal};
ghost use Rattle.lq_pipes.specs.Faults.{IsMadeFault};
ghost use Rattle.lq_pipes.specs.Steps.{IsPlanned, is_plain, stage_of};
ghost use Rattle.lq_ast.specs.Grouping.{grouped};
ghost use Rattle.lq_stats.specs.Plan.{IsPlanOf};

use crate::fault::PipeFault;
use crate::fields::{copy, delete_fields, keep_fields, rename};
use crate::kept::{keep, limit, offset};
use crate::making::make_all;
use lq_ast::{Pipe, StatsPipe};
use lq_filter::{Inner, PrepareFault, prepare_inner_numbered};
use lq_order::{sort_recs_seeded, top_recs_seeded, uniq_recs_seeded};
use lq_stats::Plan;
use lq_tuple::HashSeed;
use std::alloc::Global;
use vl_row::Recs;

/// A pipe whose regular expressions are read.
#[derive(Drop)]
pub(crate) enum Step<'p> {
    /// A pipe that has none.
    Plain(&'p Pipe),
    Stats(&'p StatsPipe, Plan),
    Keep(Inner),
}

impl<'p> Step<'p> {
    /// Reads the regular expressions of a pipe, of which the first has the number `nth`, and raises it by how many
    /// there are. Statistics have this seed of their tables.
    pub(crate) fn of(
        alloc: Global,
        seed: HashSeed,
        pipe: &'p Pipe,
        nth: &mut u32,
    ) -> Result<Step<'p>, PrepareFault>
        ensures same { IfOk result (λ step. stage_of step ≡ stage pipe.entry.now) }
        ensures planned { IfOk result IsPlanned }
        ensures counted { IsOk result → nth.new ≡ nth.old + length (patterns_of_stage (stage pipe.entry.now)) }
        ensures readable { IfOk result (λ _. AllByRecursion CanBeRead (patterns_of_stage (stage pipe.entry.now))) }
        ensures refused { IfErr result (IsRefusal nth.old (patterns_of_stage (stage pipe.entry.now))) }
    {
        match pipe {
            Pipe::Stats(stats) => Ok(Step::Stats(stats, Plan::seeded(alloc, seed, stats, nth)?)),
            Pipe::Keep(filter) => Ok(Step::Keep(prepare_inner_numbered(alloc, filter, nth)?)),
            _ => Ok(Step::Plain(pipe)),
        }
    }

    /// Returns the records that the pipe makes of others, with this seed of the tables of values.
    pub(crate) fn run(&self, alloc: Global, seed: HashSeed, r: Recs) -> Result<Recs, PipeFault>
        requires planned { IsPlanned self.now }
        requires few { length r < 2 ^ 32 }
        ensures ok { IfOk result (λ made. piped (stage_of self.now) r ≡ Ok made) }
        ensures fault { IfErr result (IsMadeFault (piped (stage_of self.now) r)) }
    {
        match self {
            Step::Plain(pipe) => run_plain(alloc, seed, pipe, r),
            Step::Stats(stats, plan) => statistics(alloc, stats, plan, r),
            Step::Keep(asked) => Ok(keep(alloc, asked, r)?),
        }
    }
}

/// Returns the records that a pipe without regular expressions makes of others, with this seed of the tables of values.
pub(crate) fn run_plain(
    alloc: Global,
    seed: HashSeed,
    pipe: &Pipe,
    r: Recs,
) -> Result<Recs, PipeFault>
    requires { is_plain (stage pipe.now) ≡ true }
    ensures ok { IfOk result (λ made. piped (stage pipe.now) r ≡ Ok made) }
    ensures fault { IfErr result (IsMadeFault (piped (stage pipe.now) r)) }
{
    match pipe {
        Pipe::Fields(names) => Ok(keep_fields(names.as_slice(), r)),
        Pipe::Delete(names) => Ok(delete_fields(names.as_slice(), r)),
        Pipe::Rename(pairs) => Ok(rename(alloc, pairs.as_slice(), r)?),
        Pipe::Copy(pairs) => Ok(copy(alloc, pairs.as_slice(), r)?),
        Pipe::Limit(most) => Ok(limit(*most, r)),
        Pipe::Offset(first) => Ok(offset(*first, r)),
        Pipe::Sort(sort) => Ok(sort_recs_seeded(alloc, seed, sort, r)?),
        Pipe::Uniq(uniq) => Ok(uniq_recs_seeded(alloc, seed, uniq, r)?),
        Pipe::Top(top) => Ok(top_recs_seeded(alloc, seed, top, r)?),
        Pipe::Make(making) => make_all(alloc, making, r),
        Pipe::Stats(_) | Pipe::Keep(_) => unreachable!(),
    }
}

/// Returns the statistics of these records.
fn statistics(alloc: Global, pipe: &StatsPipe, plan: &Plan, r: Recs) -> Result<Recs, PipeFault>
    requires planned { IsPlanOf plan.now (grouping pipe.now) }
    requires few { length r < 2 ^ 32 }
    ensures ok { IfOk result (λ made. grouped (grouping pipe.now) r ≡ Ok made) }
    ensures fault { IfErr result (IsMadeFault (grouped (grouping pipe.now) r)) }
{
    let mut gathered = plan.begin(alloc)?;
    plan.add_all(alloc, &mut gathered, r.as_slice())?;
    let made = plan.finish(alloc, gathered)?;
    Ok(made)
}
