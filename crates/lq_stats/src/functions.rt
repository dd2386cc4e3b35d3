//! Functions, prepared.
ghost use Rattle.std.specs.Prelude.{◌≡◌, ◌<◌, ◌+◌, ◌^◌, [], length, map, flat_map, option_map, IfOk, IfErr};
ghost use Rattle.std.specs.Prelude.{IsOk};
ghost use Rattle.std.specs.List.{AllByRecursion};
ghost use Rattle.std.specs.Option.{option_map_or};
ghost use Rattle.lq_ast.specs.PipeView.{statistic};
ghost use Rattle.lq_ast.specs.Patterns.{CanBeRead, patterns_of, patterns_of_statistic};
ghost use Rattle.lq_ast.specs.View.{condition};
ghost use Rattle.lq_filter.specs.Inner.{inner_condition};
ghost use Rattle.lq_filter.specs.Refusal.{IsRefusal};
ghost use Rattle.lq_stats.specs.Function.{statistic_of};

use crate::function::Function;
use lq_ast::{Filter, Func};
use lq_filter::{Inner, PrepareFault, prepare_inner_numbered};
use std::alloc::{AllocError, Global};
use vl_row::Text;

impl Function {
    /// Prepares a function, whose first pattern has the number `nth`, and raises that by the number of its patterns.
    /// 2^32 names are answered as out of memory.
    fn of(alloc: Global, func: &Func, nth: &mut u32) -> Result<Function, PrepareFault>
        ensures same { IfOk result (λ function. statistic_of function ≡ statistic func.now) }
        ensures counted { IsOk result → nth.new ≡ nth.old + length (patterns_of_statistic (statistic func.now)) }
        ensures readable { IfOk result (λ _. AllByRecursion CanBeRead (patterns_of_statistic (statistic func.now))) }
        ensures refused { IfErr result (IsRefusal nth.old (patterns_of_statistic (statistic func.now))) }
    {
        let names = func.names.as_slice();
        if names.len() > u32::MAX as usize {
            return Err(PrepareFault::Memory);
        }
        let only = only_of(alloc, &func.only, nth)?;
        Ok(Function {
            call: func.call,
            names: copies(alloc, names)?,
            only,
            name: func.name.try_copy(alloc)?,
        })
    }
}

fn copies(alloc: Global, texts: &[Text]) -> Result<Vec<Text>, AllocError>
    ensures { IfOk result (λ copies. copies.items ≡ texts.now) }
{
    let mut copies = Vec::with_capacity(alloc, texts.len())?;
    for text in texts {
        copies.push(text.try_copy(alloc)?)?;
    }
    Ok(copies)
}

fn only_of(
    alloc: Global,
    only: &Option<Filter>,
    nth: &mut u32,
) -> Result<Option<Inner>, PrepareFault>
    ensures same { IfOk result (λ made. option_map inner_condition made ≡ option_map condition only.now) }
    ensures counted { IsOk result
        → nth.new ≡ nth.old + length (option_map_or patterns_of (option_map condition only.now) []) }
    ensures readable { IfOk result (λ _.
        AllByRecursion CanBeRead (option_map_or patterns_of (option_map condition only.now) [])) }
    ensures refused { IfErr result
        (IsRefusal nth.old (option_map_or patterns_of (option_map condition only.now) [])) }
{
    match only {
        Some(filter) => Ok(Some(prepare_inner_numbered(alloc, filter, nth)?)),
        None => Ok(None),
    }
}

/// Prepares the functions of a pipe, whose first pattern has the number `nth`, and raises that by the number of their
/// patterns.
pub(crate) fn functions(
    alloc: Global,
    funcs: &[Func],
    nth: &mut u32,
) -> Result<Vec<Function>, PrepareFault>
    ensures same { IfOk result (λ made. map statistic_of made.items ≡ map statistic funcs.now) }
    ensures counted { IsOk result →
        nth.new ≡ nth.old + length (flat_map patterns_of_statistic (map statistic funcs.now)) }
    ensures readable { IfOk result (λ _.
        AllByRecursion CanBeRead (flat_map patterns_of_statistic (map statistic funcs.now))) }
    ensures refused { IfErr result (IsRefusal nth.old (flat_map patterns_of_statistic (map statistic funcs.now))) }
{
    let mut made = Vec::with_capacity(alloc, funcs.len())?;
    for func in funcs {
        made.push(Function::of(alloc, func, nth)?)?;
    }
    Ok(made)
}
