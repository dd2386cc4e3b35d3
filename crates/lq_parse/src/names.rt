// Lists of names, and numbers of records.
ghost use Rattle.std.specs.Prelude.{◌≡◌, ℕ, map};
ghost use Rattle.lq_ast.specs.PipeView.{name_pair};
ghost use Rattle.lq_grammar.specs.LogsQL.{names, name_list, new_name, pair, pairs, count, limit};
ghost use Rattle.lq_grammar.specs.Clauses.{Gives, at};

use lq_ast::Pair;
use lq_grammar::scan::{expect, past, place, text};
use lq_grammar::{BARES, Item, LIST_NAMES, Role, Stop, WORDS};
use lq_parse_filter::{name, size_of};
use std::alloc::Global;
use vl_row::{Items, Text};

/// Parses one name or more, with commas between them.
#[tactic(auto, unfolding(lq_grammar::specs::LogsQL::names), using(grammar::proofs::Turns::list_steps))]
pub(crate) fn names<'t>(
    alloc: Global,
    tokens: &'t [Item],
) -> Result<(Items<Text>, &'t [Item]), Stop>
    ensures { (depth : ℕ) → Gives (λ x. (x.0, x.1.now)) result (at depth names tokens.now) }
{
    let (first, mut rest) = name(alloc, tokens, WORDS)?;
    let mut names = Vec::new(alloc);
    names.push(first)?;
    'others: while let Some(next) = past(rest, &[Role::Comma]) {
        let (another, behind) = name(alloc, next, WORDS)?;
        names.push(another)?;
        rest = behind;
    }
    Ok((Items::of(names), rest))
}

/// Parses names in parentheses.
#[tactic(auto, unfolding(lq_grammar::specs::LogsQL::name_list))]
pub(crate) fn name_list<'t>(
    alloc: Global,
    tokens: &'t [Item],
) -> Result<(Items<Text>, &'t [Item]), Stop>
    ensures { (depth : ℕ) → Gives (λ x. (x.0, x.1.now)) result (at depth name_list tokens.now) }
{
    let rest = expect(tokens, &[Role::Open])?;
    let (names, rest) = names(alloc, rest)?;
    let rest = expect(rest, &[Role::Close])?;
    Ok((names, rest))
}

/// Parses the new name of a field, after AS or without it.
#[tactic(auto, unfolding(lq_grammar::specs::LogsQL::new_name))]
fn new_name<'t>(alloc: Global, tokens: &'t [Item]) -> Result<(Text, &'t [Item]), Stop>
    ensures { (depth : ℕ) → Gives (λ x. (x.0, x.1.now)) result (at depth new_name tokens.now) }
{
    if let Some(rest) = past(tokens, &[Role::As]) {
        return name(alloc, rest, LIST_NAMES);
    }
    name(alloc, tokens, LIST_NAMES)
}

/// Parses the name of a field, and its new name.
#[tactic(auto, unfolding(lq_grammar::specs::LogsQL::pair))]
fn pair<'t>(alloc: Global, tokens: &'t [Item]) -> Result<(Pair, &'t [Item]), Stop>
    ensures { (depth : ℕ) → Gives (λ x. (name_pair x.0, x.1.now)) result (at depth pair tokens.now) }
{
    let (from, rest) = name(alloc, tokens, LIST_NAMES)?;
    let (to, rest) = new_name(alloc, rest)?;
    Ok((Pair { from, to }, rest))
}

/// Parses one pair of names or more, with commas between them.
#[tactic(auto, unfolding(lq_grammar::specs::LogsQL::pairs), using(grammar::proofs::Turns::list_steps))]
pub(crate) fn pairs<'t>(
    alloc: Global,
    tokens: &'t [Item],
) -> Result<(Items<Pair>, &'t [Item]), Stop>
    ensures { (depth : ℕ) → Gives (λ x. (map name_pair x.0, x.1.now)) result (at depth pairs tokens.now) }
{
    let (first, mut rest) = pair(alloc, tokens)?;
    let mut pairs = Vec::new(alloc);
    pairs.push(first)?;
    'others: while let Some(next) = past(rest, &[Role::Comma]) {
        let (another, behind) = pair(alloc, next)?;
        pairs.push(another)?;
        rest = behind;
    }
    Ok((Items::of(pairs), rest))
}

/// Parses a number of records.
#[tactic(auto, unfolding(lq_grammar::specs::LogsQL::count))]
pub(crate) fn count(tokens: &[Item]) -> Result<(u64, &[Item]), Stop>
    ensures { (depth : ℕ) → Gives (λ x. (x.0, x.1.now)) result (at depth count tokens.now) }
{
    let (word, rest) = text(tokens, BARES)?;
    match size_of(word) {
        Some(count) => Ok((count, rest)),
        None => Err(Stop::BadNumber { at: place(tokens) }),
    }
}

/// Parses LIMIT with a number of records, which may be missing.
#[tactic(auto, unfolding(lq_grammar::specs::LogsQL::limit))]
pub(crate) fn limit(tokens: &[Item]) -> Result<(Option<u64>, &[Item]), Stop>
    ensures { (depth : ℕ) → Gives (λ x. (x.0, x.1.now)) result (at depth limit tokens.now) }
{
    if let Some(rest) = past(tokens, &[Role::Limit]) {
        let (count, rest) = count(rest)?;
        return Ok((Some(count), rest));
    }
    Ok((None, tokens))
}
