// Pipes, one after another.
ghost use Rattle.std.specs.Prelude.{◌≡◌, ℕ, map};
ghost use Rattle.lq_ast.specs.PipeView.{stage};
ghost use Rattle.lq_grammar.specs.LogsQL.{group_pipe, record_pipe, pipe, pipes};
ghost use Rattle.lq_grammar.specs.Query.{most_open};
ghost use Rattle.lq_grammar.specs.Clauses.{Gives, at as at_of};

use crate::names::{count, names, pairs};
use crate::row_pipe::{at_row_pipe, row_pipe};
use crate::sort::sort_pipe;
use crate::stats::stats_pipe;
use crate::uniq::{top_pipe, uniq_pipe};
use lq_ast::Pipe;
use lq_grammar::scan::{expect, past};
use lq_grammar::{Item, Role, Scope, Stop};
use lq_parse_filter::or;
use std::alloc::Global;
use vl_row::Items;

/// How many parentheses and negations may be open at one place.
pub(crate) const MOST_OPEN: u32 = 64;

/// Parses SORT, UNIQ, STATS or TOP.
#[tactic(auto, unfolding(lq_grammar::specs::LogsQL::group_pipe))]
fn group_pipe<'t>(alloc: Global, tokens: &'t [Item], depth: u32) -> Result<(Pipe, &'t [Item]), Stop>
    ensures { Gives (λ x. (stage x.0, x.1.now)) result (at_of depth group_pipe tokens.now) }
{
    if let Some(rest) = past(tokens, &[Role::Sort]) {
        return sort_pipe(alloc, rest);
    }
    if let Some(rest) = past(tokens, &[Role::Uniq]) {
        return uniq_pipe(alloc, rest);
    }
    if let Some(rest) = past(tokens, &[Role::Stats]) {
        return stats_pipe(alloc, rest, depth);
    }
    let rest = expect(tokens, &[Role::Top])?;
    top_pipe(alloc, rest)
}

/// Parses LIMIT, OFFSET, FILTER, a pipe that sets fields, or one that makes other records.
#[tactic(auto, unfolding(lq_grammar::specs::LogsQL::record_pipe))]
fn record_pipe<'t>(
    alloc: Global,
    tokens: &'t [Item],
    depth: u32,
) -> Result<(Pipe, &'t [Item]), Stop>
    ensures { Gives (λ x. (stage x.0, x.1.now)) result (at_of depth record_pipe tokens.now) }
{
    if let Some(rest) = past(tokens, &[Role::Limit, Role::Head]) {
        let (most, rest) = count(rest)?;
        return Ok((Pipe::Limit(most), rest));
    }
    if let Some(rest) = past(tokens, &[Role::Offset, Role::Skip]) {
        let (left_out, rest) = count(rest)?;
        return Ok((Pipe::Offset(left_out), rest));
    }
    if let Some(rest) = past(tokens, &[Role::Filter]) {
        let (filter, rest) = or(alloc, rest, depth, Scope::Records, None)?;
        return Ok((Pipe::Keep(filter), rest));
    }
    if at_row_pipe(tokens) {
        return row_pipe(alloc, tokens, depth);
    }
    group_pipe(alloc, tokens, depth)
}

/// Parses a pipe.
#[tactic(auto, unfolding(lq_grammar::specs::LogsQL::pipe))]
fn pipe<'t>(alloc: Global, tokens: &'t [Item], depth: u32) -> Result<(Pipe, &'t [Item]), Stop>
    ensures { Gives (λ x. (stage x.0, x.1.now)) result (at_of depth pipe tokens.now) }
{
    if let Some(rest) = past(tokens, &[Role::Fields]) {
        let (names, rest) = names(alloc, rest)?;
        return Ok((Pipe::Fields(names), rest));
    }
    if let Some(rest) = past(tokens, &[Role::Delete]) {
        let (names, rest) = names(alloc, rest)?;
        return Ok((Pipe::Delete(names), rest));
    }
    if let Some(rest) = past(tokens, &[Role::Rename]) {
        let (pairs, rest) = pairs(alloc, rest)?;
        return Ok((Pipe::Rename(pairs), rest));
    }
    if let Some(rest) = past(tokens, &[Role::Copy]) {
        let (pairs, rest) = pairs(alloc, rest)?;
        return Ok((Pipe::Copy(pairs), rest));
    }
    record_pipe(alloc, tokens, depth)
}

/// Parses the pipes after a filter, each after a bar.
#[tactic(auto, unfolding(lq_grammar::specs::LogsQL::pipes), using(grammar::proofs::Turns::list_steps))]
pub(crate) fn pipes<'t>(
    alloc: Global,
    tokens: &'t [Item],
) -> Result<(Items<Pipe>, &'t [Item]), Stop>
    ensures { Gives (λ x. (map stage x.0, x.1.now)) result (at_of most_open pipes tokens.now) }
{
    let mut pipes = Vec::new(alloc);
    let mut rest = tokens;
    'others: while let Some(next) = past(rest, &[Role::Bar]) {
        let (pipe, behind) = pipe(alloc, next, MOST_OPEN)?;
        pipes.push(pipe)?;
        rest = behind;
    }
    Ok((Items::of(pipes), rest))
}
