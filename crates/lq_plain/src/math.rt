//! The `math` pipe.
ghost use Rattle.std.specs.Prelude.{◌≡◌, IfOk, map};
ghost use Rattle.lq_ast.specs.Made.{in_range, math_fields, number_text, operated, operation, worth};
ghost use Rattle.lq_ast.specs.MakingView.{expression, math_item};

use crate::put::put;
use crate::total::decimal;
use lq_ast::{Expr, MathItem, Op};
use std::alloc::{AllocError, Global};
use vl_row::{FieldList, Text, number};

/// Sets the results of the items, from left to right, or returns the name of the first for which a number is not a
/// 64-bit integer.
pub(crate) fn math_fields(
    alloc: Global,
    items: &[MathItem],
    made: FieldList,
) -> Result<Result<FieldList, Text>, AllocError>
    ensures { IfOk result (λ answer. answer ≡ math_fields (map math_item items.now) made) }
{
    let mut made = made;
    match items {
        [] => Ok(Ok(made)),
        [item, others @ ..] => match worth(alloc, &item.name, &made, &item.expr)? {
            Err(name) => Ok(Err(name)),
            Ok(number) => {
                let text = number_text(alloc, number)?;
                put(alloc, &mut made, item.name.as_str(), text.as_str())?;
                math_fields(alloc, others, made)
            }
        },
    }
}

fn number_text(alloc: Global, number: Option<i64>) -> Result<Text, AllocError>
    ensures { IfOk result (λ text. text ≡ number_text number) }
{
    match number {
        None => Ok(Text::new()),
        Some(number) => decimal(alloc, number),
    }
}

/// Returns the number that the expression is, or `None` if it is none.
fn worth(
    alloc: Global,
    name: &Text,
    fields: &FieldList,
    expr: &Expr,
) -> Result<Result<Option<i64>, Text>, AllocError>
    ensures { IfOk result (λ answer. answer ≡ worth name.now fields.now (expression expr.now)) }
{
    match expr {
        Expr::Whole(whole) => Ok(Ok(Some(*whole))),
        Expr::Named(field) => Ok(Ok(number(fields.get(field.as_str())))),
        Expr::Two { op, left, right } => match worth(alloc, name, fields, left)? {
            Err(name) => Ok(Err(name)),
            Ok(left) => match worth(alloc, name, fields, right)? {
                Err(name) => Ok(Err(name)),
                Ok(right) => operation(alloc, name, *op, left, right),
            },
        },
    }
}

/// Returns what the operation gives, or `None` if a side has no number or the right one is zero under a division.
fn operation(
    alloc: Global,
    name: &Text,
    op: Op,
    left: Option<i64>,
    right: Option<i64>,
) -> Result<Result<Option<i64>, Text>, AllocError>
    ensures { IfOk result (λ answer. answer ≡ operation name.now op left right) }
{
    match (left, right) {
        (Some(left), Some(right)) => in_range(alloc, name, operated(op, left, right)),
        _ => Ok(Ok(None)),
    }
}

fn in_range(
    alloc: Global,
    name: &Text,
    number: Option<i128>,
) -> Result<Result<Option<i64>, Text>, AllocError>
    ensures { IfOk result (λ answer. answer ≡ in_range name.now number) }
{
    let Some(number) = number else {
        return Ok(Ok(None));
    };
    match i64::try_from(number) {
        Ok(number) => Ok(Ok(Some(number))),
        Err(_) => Ok(Err(name.try_copy(alloc)?)),
    }
}

/// Returns the exact result, or `None` if it divides by zero.
fn operated(op: Op, left: i64, right: i64) -> Option<i128>
    ensures { result ≡ operated op left right }
{
    let left = left as i128;
    let right = right as i128;
    match op {
        Op::Add => Some(left + right),
        Op::Sub => Some(left - right),
        Op::Mul => Some(left * right),
        Op::Div | Op::Mod if right == 0 => None,
        Op::Div => Some(left / right),
        Op::Mod => Some(left % right),
    }
}
