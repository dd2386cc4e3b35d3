// Filters, whose rules lead back to themselves.
ghost use Rattle.std.specs.Prelude.{◌≡◌, ◌<◌, ℕ, map, vec_len};
ghost use Rattle.std.specs.Option.{option_copied};
ghost use Rattle.grammar.specs.Rule.{next};
ghost use Rattle.grammar.specs.Reading.{first, mapped};
ghost use Rattle.lq_ast.specs.Condition.{all_of, any_of};
ghost use Rattle.lq_ast.specs.View.{condition};
ghost use Rattle.lq_grammar.specs.LogsQL.{heads, group, negation, inner_negation, inner, unit, row_unit, record_unit};
ghost use Rattle.lq_grammar.specs.LogsQL.{word_unit, stream_end, stream_value, unary, next_unary, and, or};
ghost use Rattle.lq_grammar.specs.LogsQL.{filter_of, denied_of};
ghost use Rattle.lq_grammar.specs.declared.scope.Scope.TheVariants.{Rows};
ghost use Rattle.lq_grammar.specs.Values.{field_named, of_list};
ghost use Rattle.lq_grammar.specs.Clauses.{Gives, at as at_of, name_at};

use crate::label::selector;
use crate::leaf::{bare_end, quoted_end};
use crate::leaves::{leaf, led};
use crate::time::time;
use lq_ast::Filter;
use lq_grammar::scan::{at, expect, name_past, past, place, text_past};
use lq_grammar::{COMMON_NAMES, Item, NEGATIONS, Role, Scope, Stop, UNARY};
use std::alloc::Global;

/// Parses a filter in parentheses, where `depth` more parentheses and negations may be open.
#[cycle(filter)]
#[tactic(auto, using(crate::proofs::Turning::name_steps))]
pub fn group<'t>(
    alloc: Global,
    tokens: &'t [Item],
    depth: u32,
    scope: Scope,
    field: Option<&str>,
) -> Result<(Filter, &'t [Item]), Stop>
    ensures { Gives (λ x. (condition x.0, x.1.now)) result
        (mapped (λ value. filter_of value (option_copied field.entry)) (name_at depth (group scope) tokens.now)) }
{
    let rest = expect(tokens, &[Role::Open])?;
    if depth == 0 {
        return Err(Stop::TooDeep { at: place(tokens) });
    }
    let (filter, rest) = or(alloc, rest, depth - 1, scope, field)?;
    let rest = expect(rest, &[Role::Close])?;
    Ok((filter, rest))
}

/// Parses the negation of a filter.
#[cycle(filter)]
#[tactic(auto, using(crate::proofs::Turning::name_steps))]
fn negation<'t>(
    alloc: Global,
    tokens: &'t [Item],
    depth: u32,
    scope: Scope,
    field: Option<&str>,
) -> Result<(Filter, &'t [Item]), Stop>
    ensures { Gives (λ x. (condition x.0, x.1.now)) result
        (mapped (λ value. denied_of value (option_copied field.entry)) (name_at depth (negation scope) tokens.now)) }
{
    let rest = expect(tokens, NEGATIONS)?;
    if depth == 0 {
        return Err(Stop::TooDeep { at: place(tokens) });
    }
    let (filter, rest) = unary(alloc, rest, depth - 1, scope, field)?;
    Ok((Filter::Not(Box::new(alloc, filter)?), rest))
}

/// Parses a negation after a name and a colon.
#[cycle(filter)]
#[tactic(auto, using(crate::proofs::Turning::name_steps))]
fn inner_negation<'t>(
    alloc: Global,
    tokens: &'t [Item],
    depth: u32,
    scope: Scope,
    field: Option<&str>,
) -> Result<(Filter, &'t [Item]), Stop>
    ensures { Gives (λ x. (condition x.0, x.1.now)) result
        (mapped (λ value. denied_of value (option_copied field.entry))
        (name_at depth (inner_negation scope) tokens.now)) }
{
    let rest = expect(tokens, NEGATIONS)?;
    if depth == 0 {
        return Err(Stop::TooDeep { at: place(tokens) });
    }
    let (filter, rest) = inner(alloc, rest, depth - 1, scope, field)?;
    Ok((Filter::Not(Box::new(alloc, filter)?), rest))
}

/// Parses what follows a name and a colon.
#[cycle(filter)]
#[tactic(auto, unfolding(lq_grammar::specs::LogsQL::inner))]
fn inner<'t>(
    alloc: Global,
    tokens: &'t [Item],
    depth: u32,
    scope: Scope,
    field: Option<&str>,
) -> Result<(Filter, &'t [Item]), Stop>
    ensures { Gives (λ x. (condition x.0, x.1.now)) result
        (mapped (λ made. made (option_copied field.entry)) (at_of depth (inner scope) tokens.now)) }
{
    if at(tokens, NEGATIONS) {
        return inner_negation(alloc, tokens, depth, scope, field);
    }
    if at(tokens, &[Role::Open]) {
        return group(alloc, tokens, depth, scope, field);
    }
    leaf(alloc, tokens, field)
}

/// Parses a filter without AND and OR.
#[cycle(filter)]
#[tactic(auto, unfolding(lq_grammar::specs::LogsQL::unary))]
fn unary<'t>(
    alloc: Global,
    tokens: &'t [Item],
    depth: u32,
    scope: Scope,
    field: Option<&str>,
) -> Result<(Filter, &'t [Item]), Stop>
    ensures { Gives (λ x. (condition x.0, x.1.now)) result
        (mapped (λ made. made (option_copied field.entry)) (at_of depth (unary scope) tokens.now)) }
{
    if at(tokens, NEGATIONS) {
        return negation(alloc, tokens, depth, scope, field);
    }
    unit(alloc, tokens, depth, scope, field)
}

/// Parses a filter that is not a negation.
#[cycle(filter)]
#[tactic(auto, unfolding(lq_grammar::specs::LogsQL::unit))]
fn unit<'t>(
    alloc: Global,
    tokens: &'t [Item],
    depth: u32,
    scope: Scope,
    field: Option<&str>,
) -> Result<(Filter, &'t [Item]), Stop>
    ensures { Gives (λ x. (condition x.0, x.1.now)) result
        (mapped (λ made. made (option_copied field.entry)) (at_of depth (unit scope) tokens.now)) }
{
    if at(tokens, &[Role::Open]) {
        return group(alloc, tokens, depth, scope, field);
    }
    match scope {
        Scope::Rows => row_unit(alloc, tokens, depth, field),
        Scope::Records => record_unit(alloc, tokens, depth, field),
    }
}

/// Parses a filter of rows that is neither a negation nor in parentheses.
#[cycle(filter)]
#[tactic(auto, unfolding(lq_grammar::specs::LogsQL::row_unit, lq_grammar::specs::LogsQL::selector))]
fn row_unit<'t>(
    alloc: Global,
    tokens: &'t [Item],
    depth: u32,
    field: Option<&str>,
) -> Result<(Filter, &'t [Item]), Stop>
    ensures { Gives (λ x. (condition x.0, x.1.now)) result
        (mapped (λ made. made (option_copied field.entry)) (at_of depth row_unit tokens.now)) }
{
    if at(tokens, &[Role::CurlyOpen]) {
        let (select, rest) = selector(alloc, tokens)?;
        return Ok((Filter::Select(select), rest));
    }
    if let Some((word, rest)) = text_past(tokens, &[Role::Time]) {
        if let Some(rest) = past(rest, &[Role::Colon]) {
            return time(alloc, rest);
        }
        return bare_end(alloc, rest, word, field);
    }
    if let Some((word, rest)) = text_past(tokens, &[Role::QuotedTime]) {
        if let Some(rest) = past(rest, &[Role::Colon]) {
            return time(alloc, rest);
        }
        return quoted_end(alloc, rest, word, field);
    }
    if let Some((word, rest)) = text_past(tokens, &[Role::Stream]) {
        return stream_end(alloc, rest, depth, word, field);
    }
    word_unit(alloc, tokens, depth, Scope::Rows, field)
}

/// Parses what follows the word `_stream`.
#[cycle(filter)]
#[tactic(auto, unfolding(lq_grammar::specs::LogsQL::stream_end))]
fn stream_end<'t>(
    alloc: Global,
    tokens: &'t [Item],
    depth: u32,
    word: &str,
    field: Option<&str>,
) -> Result<(Filter, &'t [Item]), Stop>
    ensures { Gives (λ x. (condition x.0, x.1.now)) result
        (mapped (λ made. made word.now (option_copied field.entry)) (at_of depth stream_end tokens.now)) }
{
    if let Some(rest) = past(tokens, &[Role::Colon]) {
        return stream_value(alloc, rest, depth, word, field);
    }
    bare_end(alloc, tokens, word, field)
}

/// Parses what follows `_stream` and a colon.
#[cycle(filter)]
#[tactic(auto, unfolding(lq_grammar::specs::LogsQL::stream_value, lq_grammar::specs::LogsQL::selector))]
fn stream_value<'t>(
    alloc: Global,
    tokens: &'t [Item],
    depth: u32,
    word: &str,
    field: Option<&str>,
) -> Result<(Filter, &'t [Item]), Stop>
    ensures { Gives (λ x. (condition x.0, x.1.now)) result
        (mapped (λ made. made word.now (option_copied field.entry)) (at_of depth stream_value tokens.now)) }
{
    if at(tokens, &[Role::CurlyOpen]) {
        let (select, rest) = selector(alloc, tokens)?;
        return Ok((Filter::Select(select), rest));
    }
    inner(alloc, tokens, depth, Scope::Rows, Some(name_of(word)))
}

/// Parses a filter of records that is neither a negation nor in parentheses.
#[cycle(filter)]
#[tactic(auto, unfolding(lq_grammar::specs::LogsQL::record_unit))]
fn record_unit<'t>(
    alloc: Global,
    tokens: &'t [Item],
    depth: u32,
    field: Option<&str>,
) -> Result<(Filter, &'t [Item]), Stop>
    ensures { Gives (λ x. (condition x.0, x.1.now)) result
        (mapped (λ made. made (option_copied field.entry)) (at_of depth record_unit tokens.now)) }
{
    if let Some((word, rest)) = text_past(tokens, &[Role::Time]) {
        return bare_end(alloc, rest, word, field);
    }
    if let Some((word, rest)) = text_past(tokens, &[Role::QuotedTime]) {
        return quoted_end(alloc, rest, word, field);
    }
    if let Some((word, rest)) = text_past(tokens, &[Role::Stream]) {
        if let Some(rest) = past(rest, &[Role::Colon]) {
            return inner(alloc, rest, depth, Scope::Records, Some(name_of(word)));
        }
        return bare_end(alloc, rest, word, field);
    }
    word_unit(alloc, tokens, depth, Scope::Records, field)
}

/// Parses a filter of a named field, or a leaf.
#[cycle(filter)]
#[tactic(auto, unfolding(lq_grammar::specs::LogsQL::word_unit))]
fn word_unit<'t>(
    alloc: Global,
    tokens: &'t [Item],
    depth: u32,
    scope: Scope,
    field: Option<&str>,
) -> Result<(Filter, &'t [Item]), Stop>
    ensures { Gives (λ x. (condition x.0, x.1.now)) result
        (mapped (λ made. made (option_copied field.entry)) (at_of depth (word_unit scope) tokens.now)) }
{
    if let Some((name, rest)) = name_past(tokens, COMMON_NAMES) {
        return inner(alloc, rest, depth, scope, Some(name_of(name)));
    }
    led(alloc, tokens, field)
}

/// Parses the next filter of an AND, after the word or without it.
#[cycle(filter)]
#[tactic(auto, unfolding(lq_grammar::specs::LogsQL::next_unary))]
fn next_unary<'t>(
    alloc: Global,
    tokens: &'t [Item],
    depth: u32,
    scope: Scope,
    field: Option<&str>,
) -> Result<(Filter, &'t [Item]), Stop>
    ensures { Gives (λ x. (condition x.0, x.1.now)) result
        (mapped (λ made. made (option_copied field.entry)) (at_of depth (next_unary scope) tokens.now)) }
{
    if let Some(rest) = past(tokens, &[Role::And]) {
        return unary(alloc, rest, depth, scope, field);
    }
    unary(alloc, tokens, depth, scope, field)
}

/// Parses one filter or more with AND between them.
#[cycle(filter)]
#[tactic(auto, unfolding(lq_grammar::specs::LogsQL::and), using(crate::proofs::Turning::fold_steps))]
fn and<'t>(
    alloc: Global,
    tokens: &'t [Item],
    depth: u32,
    scope: Scope,
    field: Option<&str>,
) -> Result<(Filter, &'t [Item]), Stop>
    ensures { Gives (λ x. (condition x.0, x.1.now)) result
        (mapped (λ made. made (option_copied field.entry)) (at_of depth (and scope) tokens.now)) }
{
    let (one, mut rest) = unary(alloc, tokens, depth, scope, field)?;
    let mut filters = Vec::new(alloc);
    filters.push(one)?;
    'others: while at_unary(rest, scope) {
        let (another, behind) = next_unary(alloc, rest, depth, scope, field)?;
        filters.push(another)?;
        rest = behind;
    }
    Ok((all_hold(filters), rest))
}

/// Parses one filter or more with OR between them.
#[cycle(filter)]
#[tactic(auto, unfolding(lq_grammar::specs::LogsQL::or), using(crate::proofs::Turning::fold_steps))]
pub fn or<'t>(
    alloc: Global,
    tokens: &'t [Item],
    depth: u32,
    scope: Scope,
    field: Option<&str>,
) -> Result<(Filter, &'t [Item]), Stop>
    ensures { Gives (λ x. (condition x.0, x.1.now)) result
        (mapped (λ made. made (option_copied field.entry)) (at_of depth (or scope) tokens.now)) }
{
    let (one, mut rest) = and(alloc, tokens, depth, scope, field)?;
    let mut filters = Vec::new(alloc);
    filters.push(one)?;
    'others: while let Some(next) = past(rest, &[Role::Or]) {
        let (another, behind) = and(alloc, next, depth, scope, field)?;
        filters.push(another)?;
        rest = behind;
    }
    Ok((any_holds(filters), rest))
}

/// Returns whether another filter of an AND begins here.
fn at_unary(tokens: &[Item], scope: Scope) -> bool
    ensures { result ≡ next (first heads (next_unary scope)) tokens.now }
{
    match scope {
        Scope::Rows => at_row_unary(tokens),
        Scope::Records => at(tokens, UNARY),
    }
}

/// Returns the same for filters of rows.
fn at_row_unary(tokens: &[Item]) -> bool
    ensures { result ≡ next (first heads (next_unary Rows)) tokens.now }
{
    at(tokens, UNARY) || at(tokens, &[Role::CurlyOpen])
}

/// Returns one filter as it is, or the AND of two or more.
fn all_hold(mut filters: Vec<Filter>) -> Filter
    requires { 0 < vec_len filters }
    ensures { condition result ≡ of_list all_of (map condition filters.items) }
{
    if filters.len() == 1
        && let Some(only) = filters.pop()
    {
        return only;
    }
    Filter::All2(filters)
}

/// Returns one filter as it is, or the OR of two or more.
fn any_holds(mut filters: Vec<Filter>) -> Filter
    requires { 0 < vec_len filters }
    ensures { condition result ≡ of_list any_of (map condition filters.items) }
{
    if filters.len() == 1
        && let Some(only) = filters.pop()
    {
        return only;
    }
    Filter::Any2(filters)
}

/// Returns the name of a field. An empty name is that of the message.
fn name_of(word: &str) -> &str
    ensures { result.now ≡ field_named word.now }
{
    if word.is_empty() { "_msg" } else { word }
}
