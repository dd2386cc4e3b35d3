//! The patterns of the filters in pipes.
ghost use Rattle.std.specs.Prelude.{◌≡◌, ◌+◌, length, map, flat_map, IfOk, IfErr, IsOk};
ghost use Rattle.std.specs.List.{AllByRecursion};
ghost use Rattle.lq_ast.specs.Patterns.{CanBeRead, patterns_of, patterns_of_stage, patterns_of_statistic};
ghost use Rattle.lq_ast.specs.PipeView.{stage, statistic};
ghost use Rattle.lq_ast.specs.View.{condition};
ghost use Rattle.lq_filter.specs.Refusal.{IsRefusal};

use crate::fault::PrepareFault;
use crate::room::Room;
use crate::tree::Tree;
use lq_ast::{Filter, Func, Pipe};

/// Reads the patterns of pipes, of which the first has the number `nth`, and raises it by the number of patterns.
pub(crate) fn read_pipes(room: &mut Room, pipes: &[Pipe], nth: &mut u32) -> Result<(), PrepareFault>
    ensures counted { IsOk result →
        nth.new ≡ nth.old + length (flat_map patterns_of_stage (map stage pipes.now)) }
    ensures readable { IfOk result
        (λ _. AllByRecursion CanBeRead (flat_map patterns_of_stage (map stage pipes.now))) }
    ensures refused { IfErr result (IsRefusal nth.old (flat_map patterns_of_stage (map stage pipes.now))) }
{
    for pipe in pipes {
        read_pipe(room, pipe, nth)?;
    }
    Ok(())
}

fn read_pipe(room: &mut Room, pipe: &Pipe, nth: &mut u32) -> Result<(), PrepareFault>
    ensures counted { IsOk result → nth.new ≡ nth.old + length (patterns_of_stage (stage pipe.now)) }
    ensures readable { IfOk result (λ _. AllByRecursion CanBeRead (patterns_of_stage (stage pipe.now))) }
    ensures refused { IfErr result (IsRefusal nth.old (patterns_of_stage (stage pipe.now))) }
{
    match pipe {
        Pipe::Keep(filter) => read_filter(room, filter, nth),
        Pipe::Stats(stats) => read_functions(room, stats.funcs.as_slice(), nth),
        _ => Ok(()),
    }
}

fn read_functions(room: &mut Room, funcs: &[Func], nth: &mut u32) -> Result<(), PrepareFault>
    ensures counted { IsOk result →
        nth.new ≡ nth.old + length (flat_map patterns_of_statistic (map statistic funcs.now)) }
    ensures readable { IfOk result
        (λ _. AllByRecursion CanBeRead (flat_map patterns_of_statistic (map statistic funcs.now))) }
    ensures refused { IfErr result
        (IsRefusal nth.old (flat_map patterns_of_statistic (map statistic funcs.now))) }
{
    for func in funcs {
        read_function(room, func, nth)?;
    }
    Ok(())
}

fn read_function(room: &mut Room, func: &Func, nth: &mut u32) -> Result<(), PrepareFault>
    ensures counted { IsOk result → nth.new ≡ nth.old + length (patterns_of_statistic (statistic func.now)) }
    ensures readable { IfOk result (λ _. AllByRecursion CanBeRead (patterns_of_statistic (statistic func.now))) }
    ensures refused { IfErr result (IsRefusal nth.old (patterns_of_statistic (statistic func.now))) }
{
    match &func.only {
        Some(filter) => read_filter(room, filter, nth),
        None => Ok(()),
    }
}

fn read_filter(room: &mut Room, filter: &Filter, nth: &mut u32) -> Result<(), PrepareFault>
    ensures counted { IsOk result → nth.new ≡ nth.old + length (patterns_of (condition filter.now)) }
    ensures readable { IfOk result (λ _. AllByRecursion CanBeRead (patterns_of (condition filter.now))) }
    ensures refused { IfErr result (IsRefusal nth.old (patterns_of (condition filter.now))) }
{
    drop(Tree::new(room, filter, nth)?);
    Ok(())
}
