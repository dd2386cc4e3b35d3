// Pipes that set fields as texts.
use crate::shown_tests::{DEPTH, push_number, push_text};
use lq_ast::{Expr, MathItem, Op, Pattern, Piece, RowPipe};
use std::alloc::AllocError;

/// Appends the word of a pipe, and what follows it.
pub(crate) fn push_row_pipe(pipe: &RowPipe, out: &mut String) -> Result<(), AllocError> {
    match pipe {
        RowPipe::Extract { pattern, from } => {
            out.push_str("extract from")?;
            push_text(from, out)?;
            push_pattern(pattern, out)
        }
        RowPipe::Format { pattern, name } => {
            out.push_str("format as")?;
            push_text(name, out)?;
            push_pattern(pattern, out)
        }
        RowPipe::Len { from, name } => {
            out.push_str("len")?;
            push_text(from, out)?;
            out.push_str(" as")?;
            push_text(name, out)
        }
        RowPipe::Math { items } => push_math(items.as_slice(), out),
    }
}

fn push_pattern(pattern: &Pattern, out: &mut String) -> Result<(), AllocError> {
    for piece in pattern.pieces.as_slice() {
        match piece {
            Piece::Plain(text) => {
                out.push_str(" text")?;
                push_text(text, out)?;
            }
            Piece::Name(name) => {
                out.push_str(" name")?;
                push_text(name, out)?;
            }
        }
    }
    Ok(())
}

fn push_math(items: &[MathItem], out: &mut String) -> Result<(), AllocError> {
    out.push_str("math")?;
    for item in items {
        out.push_str(";")?;
        push_expr(&item.expr, DEPTH, out)?;
        out.push_str(" as")?;
        push_text(&item.name, out)?;
    }
    Ok(())
}

/// Appends an expression, with operations inside it down to a depth.
fn push_expr(expr: &Expr, depth: u32, out: &mut String) -> Result<(), AllocError> {
    if depth == 0 {
        return out.push_str("..");
    }
    match expr {
        Expr::Whole(number) => push_number(i128::from(*number), out),
        Expr::Named(name) => push_text(name, out),
        Expr::Two { op, left, right } => {
            out.push_str(" (")?;
            push_expr(left, depth - 1, out)?;
            out.push_str(word_of(*op))?;
            push_expr(right, depth - 1, out)?;
            out.push_str(")")
        }
    }
}

fn word_of(op: Op) -> &'static str {
    match op {
        Op::Add => " +",
        Op::Sub => " -",
        Op::Mul => " *",
        Op::Div => " div",
        Op::Mod => " mod",
    }
}
