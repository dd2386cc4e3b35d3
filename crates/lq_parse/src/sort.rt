// The pipe SORT.
ghost use Rattle.std.specs.Prelude.{◌≡◌, ℕ, true, map, Ok};
ghost use Rattle.grammar.specs.Reading.{mapped};
ghost use Rattle.lq_ast.specs.PipeView.{sort_by, stage};
ghost use Rattle.lq_grammar.specs.LogsQL.{direction, sort_key, sort_keys, offset, cut, sort_end, sort_rest, sort_pipe};
ghost use Rattle.lq_grammar.specs.Stages.{turned as turned_round};
ghost use Rattle.lq_grammar.specs.Clauses.{Gives, at};

use crate::names::{count, limit};
use lq_ast::{Pipe, SortKey, SortPipe};
use lq_grammar::scan::{expect, past};
use lq_grammar::{Item, LIST_NAMES, Role, Stop};
use lq_parse_filter::name;
use std::alloc::Global;
use vl_row::Items;

/// Parses DESC or ASC, which may be missing, and returns whether it is DESC.
#[tactic(auto, unfolding(lq_grammar::specs::LogsQL::direction))]
fn direction(tokens: &[Item]) -> (bool, &[Item])
    ensures { (depth : ℕ) → at depth direction tokens.now ≡ Ok (result.0, result.1.now) }
{
    if let Some(rest) = past(tokens, &[Role::Desc]) {
        return (true, rest);
    }
    if let Some(rest) = past(tokens, &[Role::Asc]) {
        return (false, rest);
    }
    (false, tokens)
}

/// Parses a key.
#[tactic(auto, unfolding(lq_grammar::specs::LogsQL::sort_key))]
fn sort_key<'t>(alloc: Global, tokens: &'t [Item]) -> Result<(SortKey, &'t [Item]), Stop>
    ensures { (depth : ℕ) → Gives (λ x. (sort_by x.0, x.1.now)) result (at depth sort_key tokens.now) }
{
    let (name, rest) = name(alloc, tokens, LIST_NAMES)?;
    let (desc, rest) = direction(rest);
    Ok((SortKey { name, desc }, rest))
}

/// Parses one key or more, with commas between them.
#[tactic(auto, unfolding(lq_grammar::specs::LogsQL::sort_keys), using(grammar::proofs::Turns::list_steps))]
fn sort_keys<'t>(alloc: Global, tokens: &'t [Item]) -> Result<(Vec<SortKey>, &'t [Item]), Stop>
    ensures { (depth : ℕ) → Gives (λ x. (map sort_by x.0.items, x.1.now)) result (at depth sort_keys tokens.now) }
{
    let (first, mut rest) = sort_key(alloc, tokens)?;
    let mut keys = Vec::new(alloc);
    keys.push(first)?;
    'others: while let Some(next) = past(rest, &[Role::Comma]) {
        let (another, behind) = sort_key(alloc, next)?;
        keys.push(another)?;
        rest = behind;
    }
    Ok((keys, rest))
}

/// Parses OFFSET with a number of records, which is 0 where it is missing.
#[tactic(auto, unfolding(lq_grammar::specs::LogsQL::offset))]
fn offset(tokens: &[Item]) -> Result<(u64, &[Item]), Stop>
    ensures { (depth : ℕ) → Gives (λ x. (x.0, x.1.now)) result (at depth offset tokens.now) }
{
    if let Some(rest) = past(tokens, &[Role::Offset]) {
        return count(rest);
    }
    Ok((0, tokens))
}

/// Parses LIMIT and OFFSET in either order. Both may be missing.
#[tactic(auto, unfolding(lq_grammar::specs::LogsQL::cut))]
fn cut(tokens: &[Item]) -> Result<((Option<u64>, u64), &[Item]), Stop>
    ensures { (depth : ℕ) → Gives (λ x. ((x.0.0, x.0.1), x.1.now)) result (at depth cut tokens.now) }
{
    if let Some(rest) = past(tokens, &[Role::Limit]) {
        let (limit, rest) = count(rest)?;
        let (offset, rest) = offset(rest)?;
        return Ok(((Some(limit), offset), rest));
    }
    if let Some(rest) = past(tokens, &[Role::Offset]) {
        let (offset, rest) = count(rest)?;
        let (limit, rest) = limit(rest)?;
        return Ok(((limit, offset), rest));
    }
    Ok(((None, 0), tokens))
}

/// Parses what follows the keys of SORT.
#[tactic(auto, unfolding(lq_grammar::specs::LogsQL::sort_end))]
fn sort_end<'t>(tokens: &'t [Item], keys: Vec<SortKey>) -> Result<(Pipe, &'t [Item]), Stop>
    ensures { (depth : ℕ) → Gives (λ x. (stage x.0, x.1.now)) result
        (mapped (λ made. made (map sort_by keys.items)) (at depth sort_end tokens.now)) }
{
    let (descending, rest) = direction(tokens);
    let ((limit, offset), rest) = cut(rest)?;
    let keys = turned(keys, descending);
    Ok((
        Pipe::Sort(SortPipe {
            keys,
            limit,
            offset,
        }),
        rest,
    ))
}

/// Returns the keys, each with its direction reversed where `descending` is set.
#[tactic(auto, using(crate::proofs::Turned::unturned))]
fn turned(keys: Vec<SortKey>, descending: bool) -> Items<SortKey>
    ensures { map sort_by result ≡ map (turned_round descending) (map sort_by keys.items) }
{
    if descending {
        return Items::of(all_turned(keys));
    }
    Items::of(keys)
}

/// Returns the keys, each with its direction reversed.
fn all_turned(mut keys: Vec<SortKey>) -> Vec<SortKey>
    ensures { map sort_by result.items ≡ map (turned_round true) (map sort_by keys.items) }
{
    for i in 0..keys.len() {
        let key = &mut keys[i];
        key.desc = !key.desc;
    }
    keys
}

/// Parses what follows SORT and BY.
#[tactic(auto, unfolding(lq_grammar::specs::LogsQL::sort_rest))]
fn sort_rest<'t>(alloc: Global, tokens: &'t [Item]) -> Result<(Pipe, &'t [Item]), Stop>
    ensures { (depth : ℕ) → Gives (λ x. (stage x.0, x.1.now)) result (at depth sort_rest tokens.now) }
{
    let rest = expect(tokens, &[Role::Open])?;
    let (keys, rest) = sort_keys(alloc, rest)?;
    let rest = expect(rest, &[Role::Close])?;
    sort_end(rest, keys)
}

/// Parses what follows SORT.
#[tactic(auto, unfolding(lq_grammar::specs::LogsQL::sort_pipe))]
pub(crate) fn sort_pipe<'t>(alloc: Global, tokens: &'t [Item]) -> Result<(Pipe, &'t [Item]), Stop>
    ensures { (depth : ℕ) → Gives (λ x. (stage x.0, x.1.now)) result (at depth sort_pipe tokens.now) }
{
    if let Some(rest) = past(tokens, &[Role::By]) {
        return sort_rest(alloc, rest);
    }
    sort_rest(alloc, tokens)
}
