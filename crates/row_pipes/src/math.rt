//! The pipe `math`.
ghost use Rattle.std.specs.Int.{w64};
ghost use Rattle.std.specs.Prelude.{◌≡◌, [], ◌∷◌, List, ℕ, ℤ, FitsSigned, Ok, OnOk, IfErr, Some, SomeIff, map};
ghost use Rattle.lq_ast.specs.Made.{in_range, made, number_text, operated, worth};
ghost use Rattle.lq_ast.specs.Making.{math};
ghost use Rattle.lq_ast.specs.MakingView.{expression, math_item};
ghost use Rattle.lq_ast.specs.Records.{put_field};
ghost use Rattle.row_pipes.specs.Faults.{IsMakeFault};
ghost use Rattle.row_pipes.specs.Worth.{for_name};

use crate::fault::MakeFault;
use crate::put::put_field;
use itoa::Buffer;
use lq_ast::{Expr, MathItem, Op};
use std::alloc::{AllocError, Global};
use vl_row::{FieldList, number};

/// A number is not a 64-bit integer.
#[derive(Drop)]
struct Overflow;

/// Sets names to the values of expressions, from the first item to the last.
pub(crate) fn math(alloc: Global, items: &[MathItem], r: &mut FieldList) -> Result<(), MakeFault>
    ensures ok { OnOk result (made (math (map math_item items.now)) r.old ≡ Ok r.new) }
    ensures overflow { IfErr result (IsMakeFault (math (map math_item items.now)) r.old) }
{
    for item in items {
        set_item(alloc, item, r)?;
    }
    Ok(())
}

/// Sets the name of an item to the value of its expression.
fn set_item(alloc: Global, item: &MathItem, r: &mut FieldList) -> Result<(), MakeFault>
    ensures ok { OnOk result (made (math (math_item item.now ∷ [])) r.old ≡ Ok r.new) }
    ensures overflow { IfErr result (IsMakeFault (math (math_item item.now ∷ [])) r.old) }
{
    let Ok(number) = worth(&item.expr, r) else {
        let name = item.name.try_copy(alloc)?;
        return Err(MakeFault::Overflow { name });
    };
    put_number(alloc, item.name.as_str(), number, r)?;
    Ok(())
}

/// Gives a field the text of a number. Without a number the field has no value.
fn put_number(
    alloc: Global,
    name: &str,
    number: Option<i64>,
    r: &mut FieldList,
) -> Result<(), AllocError>
    ensures { OnOk result (r.new ≡ put_field r.old name.now (number_text number)) }
{
    match number {
        Some(number) => put_field(alloc, name, Buffer::new().format(number), r),
        None => put_field(alloc, name, "", r),
    }
}

/// Returns the number that an expression is over a record, if it is one.
fn worth(expr: &Expr, r: &FieldList) -> Result<Option<i64>, Overflow>
    ensures { (name : List ℕ) → for_name name result ≡ worth name r.now (expression expr.now) }
{
    match expr {
        Expr::Whole(number) => Ok(Some(*number)),
        Expr::Named(field) => Ok(number(r.get(field.as_str()))),
        Expr::Two { op, left, right } => {
            let left = worth(left, r)?;
            let right = worth(right, r)?;
            match (left, right) {
                (Some(left), Some(right)) => operated(*op, left, right),
                _ => Ok(None),
            }
        }
    }
}

/// Returns the result of an operation. There is none where it divides by zero.
fn operated(op: Op, left: i64, right: i64) -> Result<Option<i64>, Overflow>
    ensures { (name : List ℕ) → for_name name result ≡ in_range name (operated op left right) }
{
    match op {
        Op::Add => in_range(left.checked_add(right)),
        Op::Sub => in_range(left.checked_sub(right)),
        Op::Mul => in_range(left.checked_mul(right)),
        Op::Div | Op::Mod if right == 0 => Ok(None),
        Op::Div => in_range(left.checked_div(right)),
        Op::Mod => Ok(Some(left.wrapping_rem(right))),
    }
}

/// Returns what a checked operation gives, as an overflow where its exact result is not a 64-bit integer.
fn in_range(checked: Option<i64>) -> Result<Option<i64>, Overflow>
    ensures { (name : List ℕ) (exact : ℤ) → SomeIff checked (FitsSigned w64 exact) exact
        → for_name name result ≡ in_range name (Some exact) }
{
    match checked {
        Some(number) => Ok(Some(number)),
        None => Err(Overflow),
    }
}
