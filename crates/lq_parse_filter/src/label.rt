// Selectors of streams.
ghost use Rattle.std.specs.Prelude.{◌≡◌, ℕ};
ghost use Rattle.lq_ast.specs.View.{test_of, tests_of, groups_of};
ghost use Rattle.lq_grammar.specs.LogsQL.{how, label, labels, groups, optional_groups, selector};
ghost use Rattle.lq_grammar.specs.Values.{on_streams};
ghost use Rattle.lq_grammar.specs.Clauses.{Gives, at as at_of};

use crate::args::arg;
use crate::names::name;
use lq_ast::{Group, How, LabelTest, Select};
use lq_grammar::scan::{at, expect, expect_glued, past, past_glued};
use lq_grammar::{Item, Role, Stop, WORDS};
use std::alloc::Global;
use vl_row::Items;

/// Parses how a label is tested.
#[tactic(auto, unfolding(lq_grammar::specs::LogsQL::how))]
fn how(tokens: &[Item]) -> Result<(How, &[Item]), Stop>
    ensures { (depth : ℕ) → Gives (λ x. (x.0, x.1.now)) result (at_of depth how tokens.now) }
{
    if let Some(rest) = past(tokens, &[Role::Equals]) {
        if let Some(rest) = past_glued(rest, &[Role::Tilde]) {
            return Ok((How::Matches, rest));
        }
        return Ok((How::Is, rest));
    }
    let rest = expect(tokens, &[Role::Bang])?;
    if let Some(rest) = past_glued(rest, &[Role::Tilde]) {
        return Ok((How::MatchesNot, rest));
    }
    let rest = expect_glued(rest, &[Role::Equals])?;
    Ok((How::IsNot, rest))
}

/// Parses a test of a label.
#[tactic(auto, unfolding(lq_grammar::specs::LogsQL::label))]
fn label<'t>(alloc: Global, tokens: &'t [Item]) -> Result<(LabelTest, &'t [Item]), Stop>
    ensures { (depth : ℕ) → Gives (λ x. (test_of x.0, x.1.now)) result (at_of depth label tokens.now) }
{
    let (name, rest) = name(alloc, tokens, WORDS)?;
    let (how, rest) = how(rest)?;
    let (text, rest) = arg(alloc, rest)?;
    Ok((LabelTest { name, how, text }, rest))
}

/// Parses tests of labels, with commas between them.
#[tactic(auto, unfolding(lq_grammar::specs::LogsQL::labels), using(grammar::proofs::Turns::list_steps))]
fn labels<'t>(alloc: Global, tokens: &'t [Item]) -> Result<(Group, &'t [Item]), Stop>
    ensures { (depth : ℕ) → Gives (λ x. (tests_of x.0, x.1.now)) result (at_of depth labels tokens.now) }
{
    let (first, mut rest) = label(alloc, tokens)?;
    let mut labels = Vec::new(alloc);
    labels.push(first)?;
    'others: while let Some(next) = past(rest, &[Role::Comma]) {
        let (another, behind) = label(alloc, next)?;
        labels.push(another)?;
        rest = behind;
    }
    let labels = Items::of(labels);
    Ok((Group { labels }, rest))
}

/// Parses groups of tests, with OR between them.
#[tactic(auto, unfolding(lq_grammar::specs::LogsQL::groups), using(grammar::proofs::Turns::list_steps))]
fn groups<'t>(alloc: Global, tokens: &'t [Item]) -> Result<(Select, &'t [Item]), Stop>
    ensures { (depth : ℕ) → Gives (λ x. (groups_of x.0, x.1.now)) result (at_of depth groups tokens.now) }
{
    let (first, mut rest) = labels(alloc, tokens)?;
    let mut groups = Vec::new(alloc);
    groups.push(first)?;
    'others: while let Some(next) = past(rest, &[Role::Or]) {
        let (another, behind) = labels(alloc, next)?;
        groups.push(another)?;
        rest = behind;
    }
    let groups = Items::of(groups);
    Ok((Select { groups }, rest))
}

/// Parses a selector of streams.
#[tactic(auto, unfolding(lq_grammar::specs::LogsQL::selector))]
pub(crate) fn selector<'t>(alloc: Global, tokens: &'t [Item]) -> Result<(Select, &'t [Item]), Stop>
    ensures { (depth : ℕ) → Gives (λ x. (on_streams (groups_of x.0), x.1.now)) result
        (at_of depth selector tokens.now) }
{
    let rest = expect(tokens, &[Role::CurlyOpen])?;
    let (select, rest) = optional_groups(alloc, rest)?;
    let rest = expect(rest, &[Role::CurlyClose])?;
    Ok((select, rest))
}

/// Parses any number of groups, with OR between them.
fn optional_groups<'t>(alloc: Global, tokens: &'t [Item]) -> Result<(Select, &'t [Item]), Stop>
    ensures { (depth : ℕ) → Gives (λ x. (groups_of x.0, x.1.now)) result (at_of depth optional_groups tokens.now) }
{
    if at(tokens, WORDS) {
        return groups(alloc, tokens);
    }
    let groups = Items::of(Vec::new(alloc));
    Ok((Select { groups }, tokens))
}
