//! All pipes of a query.
ghost use Rattle.std.specs.Prelude.{◌≡◌, ◌<◌, ◌^◌, IfErr, IfOk, Ok, flat_map, length, map};
ghost use Rattle.std.specs.List.{AllByRecursion};
ghost use Rattle.lq_ast.specs.Patterns.{CanBeRead, patterns_of_stage};
ghost use Rattle.lq_ast.specs.PipeView.{stage};
ghost use Rattle.lq_ast.specs.Pipes.{all_piped};
ghost use Rattle.lq_pipes.specs.Faults.{IsMadeFault, IsPipeFault, IsRefused};
ghost use Rattle.lq_pipes.specs.Steps.{IsPlanned, stage_of};

use crate::fault::PipeFault;
use crate::step::Step;
use lq_ast::Pipe;
use lq_tuple::HashSeed;
use std::alloc::Global;
use vl_row::Recs;

/// Returns the records that the pipes make of others, one pipe after another. All their regular expressions are read
/// first: `RegexRefused` comes only where the one with that number is the first that cannot be read, and `Overflow`
/// exactly where the first number that is not a 64-bit integer is the total of the function of `stats` with this name, or
/// a number of `math` for the field of this name. The seed of the tables of values is the fixed one.
pub fn apply(alloc: Global, pipes: &[Pipe], r: Recs) -> Result<Recs, PipeFault>
    requires few { length r < 2 ^ 32 }
    ensures ok { IfOk result (λ made. all_piped (map stage pipes.now) r ≡ Ok made) }
    ensures readable { IfOk result (λ _. AllByRecursion CanBeRead (flat_map patterns_of_stage (map stage pipes.now))) }
    ensures fault { IfErr result (IsPipeFault (map stage pipes.now) r) }
{
    let seed = HashSeed::fixed();
    let steps = steps(alloc, seed, pipes)?;
    run_all(alloc, seed, steps.as_slice(), r)
}

/// Returns the pipes with their regular expressions read.
pub(crate) fn steps<'p>(
    alloc: Global,
    seed: HashSeed,
    pipes: &'p [Pipe],
) -> Result<Vec<Step<'p>>, PipeFault>
    ensures same { IfOk result (λ steps. map stage_of steps.items ≡ map stage pipes.entry.now) }
    ensures planned { IfOk result (λ steps. AllByRecursion IsPlanned steps.items) }
    ensures readable { IfOk result (λ _. AllByRecursion CanBeRead
        (flat_map patterns_of_stage (map stage pipes.entry.now))) }
    ensures refused { IfErr result (IsRefused (flat_map patterns_of_stage (map stage pipes.entry.now))) }
{
    let mut nth = 0;
    let mut steps = Vec::with_capacity(alloc, pipes.len())?;
    for pipe in pipes {
        steps.push(Step::of(alloc, seed, pipe, &mut nth)?)?;
    }
    Ok(steps)
}

/// Returns the records that these pipes make of others.
pub(crate) fn run_all(
    alloc: Global,
    seed: HashSeed,
    steps: &[Step<'_>],
    r: Recs,
) -> Result<Recs, PipeFault>
    requires few { length r < 2 ^ 32 }
    requires planned { AllByRecursion IsPlanned steps.now }
    ensures ok { IfOk result (λ made. all_piped (map stage_of steps.now) r ≡ Ok made) }
    ensures fault { IfErr result (IsMadeFault (all_piped (map stage_of steps.now) r)) }
{
    let mut left = steps;
    let mut records = r;
    while let [step, later @ ..] = left {
        records = step.run(alloc, seed, records)?;
        left = later;
    }
    Ok(records)
}
