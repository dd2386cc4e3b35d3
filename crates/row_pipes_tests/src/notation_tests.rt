//! Pipes and records in a small notation.
use lq_ast::{Expr, MathItem, Op, Pattern, Piece, RowPipe};
use std::alloc::{AllocError, Global};
use vl_row::{FieldList, Items, Text, number};

/// Returns the pipe of this word with these parts.
pub fn pipe_of(
    alloc: Global,
    word: &str,
    first: &str,
    second: &str,
) -> Result<Option<RowPipe>, AllocError> {
    let pipe = match word {
        "extract" => RowPipe::Extract {
            pattern: pattern_of(alloc, first)?,
            from: Text::try_of(alloc, second)?,
        },
        "format" => RowPipe::Format {
            pattern: pattern_of(alloc, first)?,
            name: Text::try_of(alloc, second)?,
        },
        "len" => RowPipe::Len {
            from: Text::try_of(alloc, first)?,
            name: Text::try_of(alloc, second)?,
        },
        "math" => RowPipe::Math {
            items: items_of(alloc, first)?,
        },
        "sum" => sum_of(alloc, first.parse().unwrap_or(0), second)?,
        _ => return Ok(None),
    };
    Ok(Some(pipe))
}

/// Returns a record of fields with `&` between them.
pub fn fields_of(alloc: Global, text: &str) -> Result<FieldList, AllocError> {
    let mut fields = FieldList::new(alloc);
    for part in text.split('&') {
        if let Some((name, value)) = part.split_once('=') {
            if !name.is_empty() {
                fields.set(alloc, name, value)?;
            }
        }
    }
    Ok(fields)
}

fn pattern_of(alloc: Global, text: &str) -> Result<Pattern, AllocError> {
    let (plain, named) = text.split_once('<').unwrap_or((text, ""));
    let mut pieces = Vec::new(alloc);
    if !plain.is_empty() {
        pieces.push(Piece::Plain(Text::try_of(alloc, plain)?))?;
    }
    for part in named.split('<') {
        if let Some((name, plain)) = part.split_once('>') {
            pieces.push(Piece::Name(Text::try_of(alloc, name)?))?;
            if !plain.is_empty() {
                pieces.push(Piece::Plain(Text::try_of(alloc, plain)?))?;
            }
        }
    }
    Ok(Pattern {
        pieces: Items::of(pieces),
    })
}

fn items_of(alloc: Global, text: &str) -> Result<Items<MathItem>, AllocError> {
    let mut items = Vec::new(alloc);
    for part in text.split(',') {
        if let Some((name, words)) = part.split_once('=') {
            items.push(MathItem {
                expr: expr_of(alloc, words)?,
                name: Text::try_of(alloc, name)?,
            })?;
        }
    }
    Ok(Items::of(items))
}

fn expr_of(alloc: Global, words: &str) -> Result<Expr, AllocError> {
    let mut stack = Vec::new(alloc);
    for word in words.split(' ') {
        let expr = match op_of(word) {
            Some(op) => {
                let right = stack.pop().unwrap_or(Expr::Whole(0));
                let left = stack.pop().unwrap_or(Expr::Whole(0));
                two(alloc, op, left, right)?
            }
            None => operand(alloc, word)?,
        };
        stack.push(expr)?;
    }
    Ok(stack.pop().unwrap_or(Expr::Whole(0)))
}

fn operand(alloc: Global, word: &str) -> Result<Expr, AllocError> {
    match number(word) {
        Some(number) => Ok(Expr::Whole(number)),
        None => named(alloc, word.strip_prefix('$').unwrap_or(word)),
    }
}

fn op_of(word: &str) -> Option<Op> {
    match word {
        "+" => Some(Op::Add),
        "-" => Some(Op::Sub),
        "*" => Some(Op::Mul),
        "div" => Some(Op::Div),
        "mod" => Some(Op::Mod),
        _ => None,
    }
}

fn sum_of(alloc: Global, count: u32, name: &str) -> Result<RowPipe, AllocError> {
    let mut expr = named(alloc, "a")?;
    for _ in 1..count {
        let right = named(alloc, "a")?;
        expr = two(alloc, Op::Add, expr, right)?;
    }
    let mut items = Vec::new(alloc);
    items.push(MathItem {
        expr,
        name: Text::try_of(alloc, name)?,
    })?;
    Ok(RowPipe::Math {
        items: Items::of(items),
    })
}

fn named(alloc: Global, name: &str) -> Result<Expr, AllocError> {
    Ok(Expr::Named(Text::try_of(alloc, name)?))
}

fn two(alloc: Global, op: Op, left: Expr, right: Expr) -> Result<Expr, AllocError> {
    let left = Box::new(alloc, left)?;
    let right = Box::new(alloc, right)?;
    Ok(Expr::Two { op, left, right })
}
