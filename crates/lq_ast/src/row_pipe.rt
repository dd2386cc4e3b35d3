//! Pipes that set fields of each record (LogsQL, "Pipes that make fields").
use crate::pattern::Pattern;
use vl_row::{Items, Text};

/// A pipe that sets fields of each record, by what its other fields have.
#[derive(Drop)]
pub enum RowPipe {
    /// Sets each name of the pattern to what stands in its place in the value of `from`.
    Extract { pattern: Pattern, from: Text },
    /// Sets `name` to the texts of the pattern and the values of its names, one after another.
    Format { pattern: Pattern, name: Text },
    /// Sets `name` to the length of the value of `from` in bytes.
    Len { from: Text, name: Text },
    /// Sets a name to the value of an expression, from the first item to the last.
    Math { items: Items<MathItem> },
}

/// An expression, and the name of the field that gets its value.
#[derive(Drop)]
pub struct MathItem {
    pub expr: Expr,
    pub name: Text,
}

/// An expression over 64-bit integers.
#[derive(Drop)]
pub enum Expr {
    /// A number.
    Whole(i64),
    /// The value of the field with this name, where it is a number.
    Named(Text),
    /// An operation on two numbers.
    Two {
        op: Op,
        left: Box<Expr>,
        right: Box<Expr>,
    },
}

/// An operation on two 64-bit integers.
#[derive(Clone, Copy, Debug, PartialEq, Eq)]
pub enum Op {
    Add,
    Sub,
    Mul,
    /// The quotient, rounded towards zero.
    Div,
    /// The remainder, with the sign of the left number.
    Mod,
}
