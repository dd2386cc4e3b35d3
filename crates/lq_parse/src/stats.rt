// The pipe STATS.
ghost use Rattle.std.specs.Prelude.{◌≡◌, ℕ, map, None};
ghost use Rattle.grammar.specs.Reading.{mapped, one_at};
ghost use Rattle.lq_grammar.specs.Roles.{any};
ghost use Rattle.lq_grammar.specs.Values.{field_named as name_of};
ghost use Rattle.lq_ast.specs.PipeView.{group_by, statistic, stage};
ghost use Rattle.lq_grammar.specs.LogsQL.{step, step_end, key, keys, key_list, groups_by, if_end, func_end};
ghost use Rattle.lq_grammar.specs.LogsQL.{func, funcs, stats_pipe};
ghost use Rattle.lq_parse.specs.Ends.{func_end_of};
ghost use Rattle.lq_grammar.specs.Clauses.{Gives, at as at_of};

use crate::call::{call, call_text, naming};
use lq_ast::{Filter, Func, Pipe, StatKey, StatsPipe};
use lq_grammar::scan::{at, expect, past, place, text, text_past};
use lq_grammar::{BARES, Item, KEY_NAMES, LIST_NAMES, Role, Scope, Stop, VALUE_NAMES};
use lq_parse_filter::{duration, field_named, group};
use std::alloc::Global;
use vl_row::{Items, Text};

/// What follows a function: for which records it is, and the name of its value.
#[derive(Drop)]
pub(crate) struct FuncEnd {
    pub(crate) only: Option<Filter>,
    pub(crate) name: Option<Text>,
}

/// Parses the length of a bucket: a duration above zero.
#[tactic(auto, unfolding(lq_grammar::specs::LogsQL::step))]
fn step(tokens: &[Item]) -> Result<(i64, &[Item]), Stop>
    ensures { (depth : ℕ) → Gives (λ x. (x.0, x.1.now)) result (at_of depth step tokens.now) }
{
    let (word, rest) = text(tokens, BARES)?;
    match duration(word) {
        Ok(step) if step > 0 => Ok((step, rest)),
        _ => Err(Stop::BadDuration { at: place(tokens) }),
    }
}

/// Parses a colon with the length of a bucket, which may be missing.
#[tactic(auto, unfolding(lq_grammar::specs::LogsQL::step_end))]
fn step_end(tokens: &[Item]) -> Result<(Option<i64>, &[Item]), Stop>
    ensures { (depth : ℕ) → Gives (λ x. (x.0, x.1.now)) result (at_of depth step_end tokens.now) }
{
    if let Some(rest) = past(tokens, &[Role::Colon]) {
        let (step, rest) = step(rest)?;
        return Ok((Some(step), rest));
    }
    Ok((None, tokens))
}

/// Parses a key.
#[tactic(auto, unfolding(lq_grammar::specs::LogsQL::key))]
fn key<'t>(alloc: Global, tokens: &'t [Item]) -> Result<(StatKey, &'t [Item]), Stop>
    ensures { (depth : ℕ) → Gives (λ x. (group_by x.0, x.1.now)) result (at_of depth key tokens.now) }
{
    if let Some((word, rest)) = text_past(tokens, &[Role::Time]) {
        let (step, rest) = step_end(rest)?;
        let name = Text::try_of(alloc, word)?;
        return Ok((StatKey { name, step }, rest));
    }
    plain_key(alloc, tokens, KEY_NAMES)
}

/// Parses a key that is only a name, of one of these roles.
fn plain_key<'t>(
    alloc: Global,
    tokens: &'t [Item],
    roles: &[Role],
) -> Result<(StatKey, &'t [Item]), Stop>
    ensures { Gives (λ x. (group_by x.0, x.1.now)) result
        (one_at (any roles.now) (λ t. (name_of t.content, None)) tokens.now) }
{
    let (word, rest) = text(tokens, roles)?;
    let name = field_named(alloc, word)?;
    Ok((StatKey { name, step: None }, rest))
}

/// Parses one key or more, with commas between them.
#[tactic(auto, unfolding(lq_grammar::specs::LogsQL::keys), using(grammar::proofs::Turns::list_steps))]
fn keys<'t>(alloc: Global, tokens: &'t [Item]) -> Result<(Items<StatKey>, &'t [Item]), Stop>
    ensures { (depth : ℕ) → Gives (λ x. (map group_by x.0, x.1.now)) result (at_of depth keys tokens.now) }
{
    let (first, mut rest) = key(alloc, tokens)?;
    let mut keys = Vec::new(alloc);
    keys.push(first)?;
    'others: while let Some(next) = past(rest, &[Role::Comma]) {
        let (another, behind) = key(alloc, next)?;
        keys.push(another)?;
        rest = behind;
    }
    Ok((Items::of(keys), rest))
}

/// Parses keys in parentheses, after BY or without it. They may be missing.
#[tactic(auto, unfolding(lq_grammar::specs::LogsQL::groups_by, lq_grammar::specs::LogsQL::key_list))]
fn groups_by<'t>(alloc: Global, tokens: &'t [Item]) -> Result<(Items<StatKey>, &'t [Item]), Stop>
    ensures { (depth : ℕ) → Gives (λ x. (map group_by x.0, x.1.now)) result (at_of depth groups_by tokens.now) }
{
    if let Some(rest) = past(tokens, &[Role::By]) {
        return key_list(alloc, rest);
    }
    if at(tokens, &[Role::Open]) {
        return key_list(alloc, tokens);
    }
    Ok((Items::of(Vec::new(alloc)), tokens))
}

/// Parses keys in parentheses.
#[tactic(auto, unfolding(lq_grammar::specs::LogsQL::key_list))]
fn key_list<'t>(alloc: Global, tokens: &'t [Item]) -> Result<(Items<StatKey>, &'t [Item]), Stop>
    ensures { (depth : ℕ) → Gives (λ x. (map group_by x.0, x.1.now)) result (at_of depth key_list tokens.now) }
{
    let rest = expect(tokens, &[Role::Open])?;
    let (keys, rest) = keys(alloc, rest)?;
    let rest = expect(rest, &[Role::Close])?;
    Ok((keys, rest))
}

/// Parses what follows IF: a filter in parentheses and a name. Without the filter the word itself is the name.
#[tactic(auto, unfolding(lq_grammar::specs::LogsQL::if_end))]
fn if_end<'t>(
    alloc: Global,
    tokens: &'t [Item],
    depth: u32,
    word: &str,
) -> Result<(FuncEnd, &'t [Item]), Stop>
    ensures { Gives (λ x. (func_end_of x.0, x.1.now)) result
        (mapped (λ made. made word.now) (at_of depth if_end tokens.now)) }
{
    if at(tokens, &[Role::Open]) {
        let (filter, rest) = group(alloc, tokens, depth, Scope::Records, None)?;
        let (name, rest) = naming(alloc, rest, LIST_NAMES)?;
        let only = Some(filter);
        return Ok((FuncEnd { only, name }, rest));
    }
    let name = Some(Text::try_of(alloc, word)?);
    Ok((FuncEnd { only: None, name }, tokens))
}

/// Parses IF with a condition, and a name. Both may be missing.
#[tactic(auto, unfolding(lq_grammar::specs::LogsQL::func_end))]
fn func_end<'t>(
    alloc: Global,
    tokens: &'t [Item],
    depth: u32,
) -> Result<(FuncEnd, &'t [Item]), Stop>
    ensures { Gives (λ x. (func_end_of x.0, x.1.now)) result (at_of depth func_end tokens.now) }
{
    if let Some((word, rest)) = text_past(tokens, &[Role::If]) {
        return if_end(alloc, rest, depth, word);
    }
    let (name, rest) = naming(alloc, tokens, VALUE_NAMES)?;
    Ok((FuncEnd { only: None, name }, rest))
}

/// Parses a function with its condition and the name of its value.
#[tactic(auto, unfolding(lq_grammar::specs::LogsQL::func))]
fn func<'t>(alloc: Global, tokens: &'t [Item], depth: u32) -> Result<(Func, &'t [Item]), Stop>
    ensures { Gives (λ x. (statistic x.0, x.1.now)) result (at_of depth func tokens.now) }
{
    let ((call, names), rest) = call(alloc, tokens)?;
    let (end, rest) = func_end(alloc, rest, depth)?;
    let FuncEnd { only, name } = end;
    let name = match name {
        Some(name) => name,
        None => call_text(alloc, call, names.as_slice())?,
    };
    Ok((
        Func {
            call,
            names,
            only,
            name,
        },
        rest,
    ))
}

/// Parses one function or more, with commas between them.
#[tactic(auto, unfolding(lq_grammar::specs::LogsQL::funcs), using(grammar::proofs::Turns::list_steps))]
fn funcs<'t>(
    alloc: Global,
    tokens: &'t [Item],
    depth: u32,
) -> Result<(Items<Func>, &'t [Item]), Stop>
    ensures { Gives (λ x. (map statistic x.0, x.1.now)) result (at_of depth funcs tokens.now) }
{
    let (first, mut rest) = func(alloc, tokens, depth)?;
    let mut funcs = Vec::new(alloc);
    funcs.push(first)?;
    'others: while let Some(next) = past(rest, &[Role::Comma]) {
        let (another, behind) = func(alloc, next, depth)?;
        funcs.push(another)?;
        rest = behind;
    }
    Ok((Items::of(funcs), rest))
}

/// Parses what follows STATS.
#[tactic(auto, unfolding(lq_grammar::specs::LogsQL::stats_pipe))]
pub(crate) fn stats_pipe<'t>(
    alloc: Global,
    tokens: &'t [Item],
    depth: u32,
) -> Result<(Pipe, &'t [Item]), Stop>
    ensures { Gives (λ x. (stage x.0, x.1.now)) result (at_of depth stats_pipe tokens.now) }
{
    let (keys, rest) = groups_by(alloc, tokens)?;
    let (funcs, rest) = funcs(alloc, rest, depth)?;
    Ok((Pipe::Stats(StatsPipe { keys, funcs }), rest))
}
