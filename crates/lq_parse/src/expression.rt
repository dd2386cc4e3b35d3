// Expressions, whose rule leads back to itself.
ghost use Rattle.std.specs.Prelude.{◌≡◌, ℕ, IfOk};
ghost use Rattle.grammar.specs.Reading.{mapped, one_at};
ghost use Rattle.lq_ast.specs.Making.{two as two_of};
ghost use Rattle.lq_ast.specs.MakingView.{expression};
ghost use Rattle.lq_grammar.specs.LogsQL.{atom, factor_op, next_factor, term, sum_op, next_term, expr, parenthesized};
ghost use Rattle.lq_grammar.specs.LogsQL.{expression_of};
ghost use Rattle.lq_grammar.specs.Roles.{any, quoted};
ghost use Rattle.lq_grammar.specs.Values.{bare_value as value_of_bare, field_value as value_of_field};
ghost use Rattle.lq_grammar.specs.Clauses.{Gives, at as at_of, name_at};

use lq_ast::{Expr, Op};
use lq_grammar::scan::{at, expect, past, place, text_past};
use lq_grammar::{ATOM_BARES, Item, QUOTED, Role, Stop};
use lq_parse_filter::{field_named, name};
use std::alloc::{AllocError, Global};
use vl_row::number;

/// What stands between the operands of a product.
const FACTOR_OPS: &[Role] = &[Role::Star, Role::Div, Role::Mod];

/// What stands between the operands of a sum.
const SUM_OPS: &[Role] = &[Role::Plus, Role::Minus];

/// Parses an expression in parentheses, where `depth` more parentheses may be open.
#[cycle(expression)]
#[tactic(auto, using(lq_parse_filter::proofs::Turning::name_steps))]
fn parenthesized<'t>(
    alloc: Global,
    tokens: &'t [Item],
    depth: u32,
) -> Result<(Expr, &'t [Item]), Stop>
    ensures { Gives (λ x. (expression x.0, x.1.now)) result
        (mapped expression_of (name_at depth parenthesized tokens.now)) }
{
    let rest = expect(tokens, &[Role::Open])?;
    if depth == 0 {
        return Err(Stop::TooDeep { at: place(tokens) });
    }
    let (expr, rest) = expr(alloc, rest, depth - 1)?;
    let rest = expect(rest, &[Role::Close])?;
    Ok((expr, rest))
}

/// Parses an operand.
#[cycle(expression)]
#[tactic(auto, unfolding(lq_grammar::specs::LogsQL::atom))]
fn atom<'t>(alloc: Global, tokens: &'t [Item], depth: u32) -> Result<(Expr, &'t [Item]), Stop>
    ensures { Gives (λ x. (expression x.0, x.1.now)) result (at_of depth atom tokens.now) }
{
    if let Some((word, rest)) = text_past(tokens, ATOM_BARES) {
        return Ok((bare_value(alloc, word)?, rest));
    }
    if at(tokens, &[Role::Open]) {
        return parenthesized(alloc, tokens, depth);
    }
    quoted_value(alloc, tokens)
}

/// Parses the quoted name of a field.
fn quoted_value<'t>(alloc: Global, tokens: &'t [Item]) -> Result<(Expr, &'t [Item]), Stop>
    ensures { Gives (λ x. (expression x.0, x.1.now)) result
        (one_at (any quoted) (λ t. value_of_field t.content) tokens.now) }
{
    let (name, rest) = name(alloc, tokens, QUOTED)?;
    Ok((Expr::Named(name), rest))
}

/// Returns the number that a word is, or else the value of the field of this name.
fn bare_value(alloc: Global, word: &str) -> Result<Expr, AllocError>
    ensures { IfOk result (λ value. expression value ≡ value_of_bare word.now) }
{
    match number(word) {
        Some(number) => Ok(Expr::Whole(number)),
        None => Ok(Expr::Named(field_named(alloc, word)?)),
    }
}

/// Parses `*`, DIV or MOD.
#[tactic(auto, unfolding(lq_grammar::specs::LogsQL::factor_op))]
fn factor_op(tokens: &[Item]) -> Result<(Op, &[Item]), Stop>
    ensures { (depth : ℕ) → Gives (λ x. (x.0, x.1.now)) result (at_of depth factor_op tokens.now) }
{
    if let Some(rest) = past(tokens, &[Role::Star]) {
        return Ok((Op::Mul, rest));
    }
    if let Some(rest) = past(tokens, &[Role::Div]) {
        return Ok((Op::Div, rest));
    }
    let rest = expect(tokens, &[Role::Mod])?;
    Ok((Op::Mod, rest))
}

/// Parses an operation of a product and its right operand.
#[cycle(expression)]
#[tactic(auto, unfolding(lq_grammar::specs::LogsQL::next_factor))]
fn next_factor<'t>(
    alloc: Global,
    tokens: &'t [Item],
    depth: u32,
) -> Result<((Op, Expr), &'t [Item]), Stop>
    ensures { Gives (λ x. ((x.0.0, expression x.0.1), x.1.now)) result (at_of depth next_factor tokens.now) }
{
    let (op, rest) = factor_op(tokens)?;
    let (right, rest) = atom(alloc, rest, depth)?;
    Ok(((op, right), rest))
}

/// Parses a product: an operand, or more of them with operations between.
#[cycle(expression)]
#[tactic(auto, unfolding(lq_grammar::specs::LogsQL::term), using(crate::proofs::Operated::factor_steps))]
fn term<'t>(alloc: Global, tokens: &'t [Item], depth: u32) -> Result<(Expr, &'t [Item]), Stop>
    ensures { Gives (λ x. (expression x.0, x.1.now)) result (at_of depth term tokens.now) }
{
    let (mut left, mut rest) = atom(alloc, tokens, depth)?;
    'others: while at(rest, FACTOR_OPS) {
        let ((op, right), behind) = next_factor(alloc, rest, depth)?;
        left = two(alloc, op, left, right)?;
        rest = behind;
    }
    Ok((left, rest))
}

/// Parses `+` or `-`.
#[tactic(auto, unfolding(lq_grammar::specs::LogsQL::sum_op))]
fn sum_op(tokens: &[Item]) -> Result<(Op, &[Item]), Stop>
    ensures { (depth : ℕ) → Gives (λ x. (x.0, x.1.now)) result (at_of depth sum_op tokens.now) }
{
    if let Some(rest) = past(tokens, &[Role::Plus]) {
        return Ok((Op::Add, rest));
    }
    let rest = expect(tokens, &[Role::Minus])?;
    Ok((Op::Sub, rest))
}

/// Parses an operation of a sum and its right operand.
#[cycle(expression)]
#[tactic(auto, unfolding(lq_grammar::specs::LogsQL::next_term))]
fn next_term<'t>(
    alloc: Global,
    tokens: &'t [Item],
    depth: u32,
) -> Result<((Op, Expr), &'t [Item]), Stop>
    ensures { Gives (λ x. ((x.0.0, expression x.0.1), x.1.now)) result (at_of depth next_term tokens.now) }
{
    let (op, rest) = sum_op(tokens)?;
    let (right, rest) = term(alloc, rest, depth)?;
    Ok(((op, right), rest))
}

/// Parses an expression: a product, or more of them with operations between.
#[cycle(expression)]
#[tactic(auto, unfolding(lq_grammar::specs::LogsQL::expr), using(crate::proofs::Operated::term_steps))]
pub(crate) fn expr<'t>(
    alloc: Global,
    tokens: &'t [Item],
    depth: u32,
) -> Result<(Expr, &'t [Item]), Stop>
    ensures { Gives (λ x. (expression x.0, x.1.now)) result (at_of depth expr tokens.now) }
{
    let (mut left, mut rest) = term(alloc, tokens, depth)?;
    'others: while at(rest, SUM_OPS) {
        let ((op, right), behind) = next_term(alloc, rest, depth)?;
        left = two(alloc, op, left, right)?;
        rest = behind;
    }
    Ok((left, rest))
}

/// Returns an operation on two operands.
fn two(alloc: Global, op: Op, left: Expr, right: Expr) -> Result<Expr, AllocError>
    ensures { IfOk result (λ value. expression value ≡ two_of op (expression left) (expression right)) }
{
    Ok(Expr::Two {
        op,
        left: Box::new(alloc, left)?,
        right: Box::new(alloc, right)?,
    })
}
