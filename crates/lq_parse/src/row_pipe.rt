// Pipes that set fields of each record.
ghost use Rattle.std.specs.Prelude.{◌≡◌, ℕ, map};
ghost use Rattle.grammar.specs.Rule.{next};
ghost use Rattle.grammar.specs.Reading.{first};
ghost use Rattle.lq_ast.specs.MakingView.{math_item, pattern_pieces};
ghost use Rattle.lq_ast.specs.PipeView.{stage};
ghost use Rattle.lq_grammar.specs.LogsQL.{set_name, target, source, extract_pipe, format_pipe, len_pipe};
ghost use Rattle.lq_grammar.specs.LogsQL.{math_item as math_item_rule, math_items, row_pipe, heads};
ghost use Rattle.lq_grammar.specs.Clauses.{Gives, at as at_of};
ghost use Rattle.lq_parse.specs.Ends.{pieces};

use crate::expression::expr;
use lq_ast::{MathItem, Pattern, PatternFault, Pipe, RowPipe, read_pattern};
use lq_grammar::scan::{at, expect, past, place, text};
use lq_grammar::{Item, QUOTED, Role, SET_NAMES, Stop};
use lq_parse_filter::name;
use std::alloc::Global;
use vl_row::{Items, Text};

/// Parses the name of a field where AS, DIV and MOD are keywords.
#[tactic(auto, unfolding(lq_grammar::specs::LogsQL::set_name))]
fn set_name<'t>(alloc: Global, tokens: &'t [Item]) -> Result<(Text, &'t [Item]), Stop>
    ensures { (depth : ℕ) → Gives (λ x. (x.0, x.1.now)) result (at_of depth set_name tokens.now) }
{
    name(alloc, tokens, SET_NAMES)
}

/// Parses the name of the field that is set, after AS or without it.
#[tactic(auto, unfolding(lq_grammar::specs::LogsQL::target))]
fn target<'t>(alloc: Global, tokens: &'t [Item]) -> Result<(Text, &'t [Item]), Stop>
    ensures { (depth : ℕ) → Gives (λ x. (x.0, x.1.now)) result (at_of depth target tokens.now) }
{
    if let Some(rest) = past(tokens, &[Role::As]) {
        return set_name(alloc, rest);
    }
    set_name(alloc, tokens)
}

/// Parses FROM and the name of a field, which is the message where they are missing.
#[tactic(auto, unfolding(lq_grammar::specs::LogsQL::source))]
fn source<'t>(alloc: Global, tokens: &'t [Item]) -> Result<(Text, &'t [Item]), Stop>
    ensures { (depth : ℕ) → Gives (λ x. (x.0, x.1.now)) result (at_of depth source tokens.now) }
{
    if let Some(rest) = past(tokens, &[Role::From]) {
        return set_name(alloc, rest);
    }
    Ok((Text::try_of(alloc, "_msg")?, tokens))
}

/// Parses a pattern, one by which values are taken out where `extracting` is set.
#[tactic(auto, using(crate::proofs::Patterns::pieces_read))]
fn pattern<'t>(
    alloc: Global,
    tokens: &'t [Item],
    extracting: bool,
) -> Result<(Pattern, &'t [Item]), Stop>
    ensures { (depth : ℕ) → Gives (λ x. (pattern_pieces x.0, x.1.now)) result
        (at_of depth (pieces extracting) tokens.now) }
{
    let (word, rest) = text(tokens, QUOTED)?;
    match read_pattern(alloc, word, extracting) {
        Ok(pattern) => Ok((pattern, rest)),
        Err(PatternFault::BadPattern) => Err(Stop::BadPattern { at: place(tokens) }),
        Err(PatternFault::Memory) => Err(Stop::Memory),
    }
}

/// Parses what follows EXTRACT.
#[tactic(auto, unfolding(lq_grammar::specs::LogsQL::extract_pipe))]
fn extract_pipe<'t>(alloc: Global, tokens: &'t [Item]) -> Result<(Pipe, &'t [Item]), Stop>
    ensures { (depth : ℕ) → Gives (λ x. (stage x.0, x.1.now)) result (at_of depth extract_pipe tokens.now) }
{
    let (pattern, rest) = pattern(alloc, tokens, true)?;
    let (from, rest) = source(alloc, rest)?;
    Ok((Pipe::Make(RowPipe::Extract { pattern, from }), rest))
}

/// Parses what follows FORMAT.
#[tactic(auto, unfolding(lq_grammar::specs::LogsQL::format_pipe))]
fn format_pipe<'t>(alloc: Global, tokens: &'t [Item]) -> Result<(Pipe, &'t [Item]), Stop>
    ensures { (depth : ℕ) → Gives (λ x. (stage x.0, x.1.now)) result (at_of depth format_pipe tokens.now) }
{
    let (pattern, rest) = pattern(alloc, tokens, false)?;
    let (name, rest) = target(alloc, rest)?;
    Ok((Pipe::Make(RowPipe::Format { pattern, name }), rest))
}

/// Parses what follows LEN.
#[tactic(auto, unfolding(lq_grammar::specs::LogsQL::len_pipe))]
fn len_pipe<'t>(alloc: Global, tokens: &'t [Item]) -> Result<(Pipe, &'t [Item]), Stop>
    ensures { (depth : ℕ) → Gives (λ x. (stage x.0, x.1.now)) result (at_of depth len_pipe tokens.now) }
{
    let rest = expect(tokens, &[Role::Open])?;
    let (from, rest) = set_name(alloc, rest)?;
    let rest = expect(rest, &[Role::Close])?;
    let (name, rest) = target(alloc, rest)?;
    Ok((Pipe::Make(RowPipe::Len { from, name }), rest))
}

/// Parses an expression, and the name of the field that gets its value.
#[tactic(auto, unfolding(lq_grammar::specs::LogsQL::math_item))]
fn math_item<'t>(
    alloc: Global,
    tokens: &'t [Item],
    depth: u32,
) -> Result<(MathItem, &'t [Item]), Stop>
    ensures { Gives (λ x. (math_item x.0, x.1.now)) result (at_of depth math_item_rule tokens.now) }
{
    let (expr, rest) = expr(alloc, tokens, depth)?;
    let (name, rest) = target(alloc, rest)?;
    Ok((MathItem { expr, name }, rest))
}

/// Parses one expression with its name or more, with commas between them.
#[tactic(auto, unfolding(lq_grammar::specs::LogsQL::math_items), using(grammar::proofs::Turns::list_steps))]
fn math_items<'t>(
    alloc: Global,
    tokens: &'t [Item],
    depth: u32,
) -> Result<(Items<MathItem>, &'t [Item]), Stop>
    ensures { Gives (λ x. (map math_item x.0, x.1.now)) result (at_of depth math_items tokens.now) }
{
    let (first, mut rest) = math_item(alloc, tokens, depth)?;
    let mut items = Vec::new(alloc);
    items.push(first)?;
    'others: while let Some(next) = past(rest, &[Role::Comma]) {
        let (another, behind) = math_item(alloc, next, depth)?;
        items.push(another)?;
        rest = behind;
    }
    Ok((Items::of(items), rest))
}

/// Parses EXTRACT, FORMAT, LEN or MATH.
#[tactic(auto, unfolding(lq_grammar::specs::LogsQL::row_pipe))]
pub(crate) fn row_pipe<'t>(
    alloc: Global,
    tokens: &'t [Item],
    depth: u32,
) -> Result<(Pipe, &'t [Item]), Stop>
    ensures { Gives (λ x. (stage x.0, x.1.now)) result (at_of depth row_pipe tokens.now) }
{
    if let Some(rest) = past(tokens, &[Role::Extract]) {
        return extract_pipe(alloc, rest);
    }
    if let Some(rest) = past(tokens, &[Role::Format]) {
        return format_pipe(alloc, rest);
    }
    if let Some(rest) = past(tokens, &[Role::Len]) {
        return len_pipe(alloc, rest);
    }
    let rest = expect(tokens, &[Role::Math])?;
    let (items, rest) = math_items(alloc, rest, depth)?;
    Ok((Pipe::Make(RowPipe::Math { items }), rest))
}

/// Returns whether such a pipe begins here.
pub(crate) fn at_row_pipe(tokens: &[Item]) -> bool
    ensures { result ≡ next (first heads row_pipe) tokens.now }
{
    at(
        tokens,
        &[Role::Extract, Role::Format, Role::Len, Role::Math],
    )
}
