// The pipes UNIQ and TOP.
ghost use Rattle.std.specs.Prelude.{◌≡◌, ℕ, Ok};
ghost use Rattle.grammar.specs.Reading.{mapped};
ghost use Rattle.lq_ast.specs.PipeView.{stage};
ghost use Rattle.lq_grammar.specs.LogsQL.{hits, uniq_end, uniq_rest, uniq_pipe, most_end, by_most, word_most, most, top_pipe};
ghost use Rattle.lq_grammar.specs.Clauses.{Gives, at as at_of};

use crate::names::{limit, name_list};
use lq_ast::{Pipe, TopPipe, UniqPipe};
use lq_grammar::scan::{at, expect, past, place, text};
use lq_grammar::{Item, OTHER_BARES, Role, Stop};
use lq_parse_filter::size_of;
use std::alloc::Global;
use vl_row::{Items, Text};

/// Parses WITH HITS, which may be missing, and returns whether it is there.
#[tactic(auto, unfolding(lq_grammar::specs::LogsQL::hits))]
fn hits(tokens: &[Item]) -> Result<(bool, &[Item]), Stop>
    ensures { (depth : ℕ) → Gives (λ x. (x.0, x.1.now)) result (at_of depth hits tokens.now) }
{
    if let Some(rest) = past(tokens, &[Role::With]) {
        let rest = expect(rest, &[Role::Hits])?;
        return Ok((true, rest));
    }
    Ok((false, tokens))
}

/// Parses what follows the names of UNIQ.
#[tactic(auto, unfolding(lq_grammar::specs::LogsQL::uniq_end))]
fn uniq_end<'t>(tokens: &'t [Item], names: Items<Text>) -> Result<(Pipe, &'t [Item]), Stop>
    ensures { (depth : ℕ) → Gives (λ x. (stage x.0, x.1.now)) result
        (mapped (λ made. made names) (at_of depth uniq_end tokens.now)) }
{
    let (hits, rest) = hits(tokens)?;
    let (limit, rest) = limit(rest)?;
    Ok((Pipe::Uniq(UniqPipe { names, hits, limit }), rest))
}

/// Parses what follows UNIQ and BY.
#[tactic(auto, unfolding(lq_grammar::specs::LogsQL::uniq_rest))]
fn uniq_rest<'t>(alloc: Global, tokens: &'t [Item]) -> Result<(Pipe, &'t [Item]), Stop>
    ensures { (depth : ℕ) → Gives (λ x. (stage x.0, x.1.now)) result (at_of depth uniq_rest tokens.now) }
{
    let (names, rest) = name_list(alloc, tokens)?;
    uniq_end(rest, names)
}

/// Parses what follows UNIQ.
#[tactic(auto, unfolding(lq_grammar::specs::LogsQL::uniq_pipe))]
pub(crate) fn uniq_pipe<'t>(alloc: Global, tokens: &'t [Item]) -> Result<(Pipe, &'t [Item]), Stop>
    ensures { (depth : ℕ) → Gives (λ x. (stage x.0, x.1.now)) result (at_of depth uniq_pipe tokens.now) }
{
    if let Some(rest) = past(tokens, &[Role::By]) {
        return uniq_rest(alloc, rest);
    }
    uniq_rest(alloc, tokens)
}

/// Parses BY, which may be missing, and returns whether it is there.
#[tactic(auto, unfolding(lq_grammar::specs::LogsQL::most_end))]
fn most_end(tokens: &[Item]) -> (bool, &[Item])
    ensures { (depth : ℕ) → at_of depth most_end tokens.now ≡ Ok (result.0, result.1.now) }
{
    if let Some(rest) = past(tokens, &[Role::By]) {
        return (true, rest);
    }
    (false, tokens)
}

/// Parses BY where no number stands before it. A BY before another BY is read as the number, and refused.
#[tactic(auto, unfolding(lq_grammar::specs::LogsQL::by_most))]
fn by_most(tokens: &[Item]) -> Result<(u64, &[Item]), Stop>
    ensures { (depth : ℕ) → Gives (λ x. (x.0, x.1.now)) result (at_of depth by_most tokens.now) }
{
    let (word, rest) = text(tokens, &[Role::By])?;
    let (again, rest) = most_end(rest);
    if !again {
        return Ok((10, rest));
    }
    match size_of(word) {
        Some(most) => Ok((most, rest)),
        None => Err(Stop::BadNumber { at: place(tokens) }),
    }
}

/// Parses a number, and BY or nothing after it.
#[tactic(auto, unfolding(lq_grammar::specs::LogsQL::word_most))]
fn word_most(tokens: &[Item]) -> Result<(u64, &[Item]), Stop>
    ensures { (depth : ℕ) → Gives (λ x. (x.0, x.1.now)) result (at_of depth word_most tokens.now) }
{
    let (word, rest) = text(tokens, OTHER_BARES)?;
    let (_, rest) = most_end(rest);
    match size_of(word) {
        Some(most) => Ok((most, rest)),
        None => Err(Stop::BadNumber { at: place(tokens) }),
    }
}

/// Parses how many tuples TOP keeps: 10 where the number is missing.
#[tactic(auto, using(crate::proofs::Most::most_by, crate::proofs::Most::most_word, crate::proofs::Most::most_none))]
fn most(tokens: &[Item]) -> Result<(u64, &[Item]), Stop>
    ensures { (depth : ℕ) → Gives (λ x. (x.0, x.1.now)) result (at_of depth most tokens.now) }
{
    if at(tokens, &[Role::By]) {
        return by_most(tokens);
    }
    if at(tokens, OTHER_BARES) {
        return word_most(tokens);
    }
    Ok((10, tokens))
}

/// Parses what follows TOP.
#[tactic(auto, unfolding(lq_grammar::specs::LogsQL::top_pipe))]
pub(crate) fn top_pipe<'t>(alloc: Global, tokens: &'t [Item]) -> Result<(Pipe, &'t [Item]), Stop>
    ensures { (depth : ℕ) → Gives (λ x. (stage x.0, x.1.now)) result (at_of depth top_pipe tokens.now) }
{
    let (n, rest) = most(tokens)?;
    let (names, rest) = name_list(alloc, rest)?;
    Ok((Pipe::Top(TopPipe { n, names }), rest))
}
