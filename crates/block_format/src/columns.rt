//! The columns of a block.

ghost use Rattle.std.specs.Prelude.{◌≡◌, ◌<◌, ◌^◌, ◌++◌, IfOk, OnOk, length};
ghost use Rattle.std.specs.List.{All};
ghost use Rattle.byte_format.specs.Format.{front, many};
ghost use Rattle.byte_format.specs.Gives.{Gives};
ghost use Rattle.word_filter.specs.Words.{filter_of};
ghost use Rattle.block_format.specs.Columns.{HasRows, column, column_bytes, column_steps};

use block_column::{FoundColumn, ValueColumn, take_kind};
use byte_format::{Stop, put_text16, take_text16};
use std::alloc::{AllocError, Global};
use std::marker::Model;
use token_bloom::Bloom;
use vl_row::Text;
use word_filter::{put_filter, take_filter};

/// A column that was read: its name and its values, in whatever kind.
///
/// A contract sees it as the name, and the list of the values.
#[derive(Drop)]
pub struct NamedColumn {
    pub name: Text,
    pub values: FoundColumn,
}

impl Model for NamedColumn {
    ghost use Rattle.block_model.specs.Columns.{Column};

    ghost Value = { Column };

    ghost view = { λ c. (c.name, c.values) };
}

/// Appends a column: its name, its kind, the filter of its words, and its body.
#[tactic(auto, unfolding(crate::specs::Columns::column_bytes))]
pub fn put_column(
    out: &mut Vec<u8>,
    name: &str,
    filter: &Bloom,
    values: &ValueColumn,
) -> Result<(), AllocError>
    requires name { length name.now < 2 ^ 16 }
    requires filter { filter.now ≡ filter_of values.now }
    requires small { length filter.now < 2 ^ 32 }
    ensures { OnOk result (out.new.items ≡ out.old.items ++ column_bytes (name.now, values.now)) }
{
    put_text16(out, name)?;
    out.push(values.kind())?;
    put_filter(out, filter)?;
    values.put_body(out)?;
    Ok(())
}

/// This many columns of this many rows at the front of the bytes, and the bytes after them.
pub(crate) fn take_columns(
    alloc: Global,
    count: u16,
    rows: usize,
    bytes: &[u8],
) -> Result<(Vec<NamedColumn>, &[u8]), Stop>
    ensures value { Gives (λ x. (x.0.items, x.1.now)) result (front (many count (column rows)) bytes.now) }
    ensures rows { IfOk result (λ x. All (HasRows rows) x.0.items) }
{
    let mut columns = Vec::new(alloc);
    let mut rest = bytes;
    for _ in 0..count {
        let (column, after) = take_column(alloc, rows, rest)?;
        columns.push(column)?;
        rest = after;
    }
    Ok((columns, rest))
}

fn take_column(alloc: Global, rows: usize, bytes: &[u8]) -> Result<(NamedColumn, &[u8]), Stop>
    ensures value { Gives (λ x. (x.0, x.1.now)) result (front (column rows) bytes.now) }
    ensures rows { IfOk result (λ x. HasRows rows x.0) }
{
    take_steps(alloc, rows, bytes)
}

#[tactic(auto, unfolding(crate::specs::Columns::column_steps))]
fn take_steps(alloc: Global, rows: usize, bytes: &[u8]) -> Result<(NamedColumn, &[u8]), Stop>
    ensures value { Gives (λ x. (x.0, x.1.now)) result (column_steps rows bytes.now) }
    ensures rows { IfOk result (λ x. HasRows rows x.0) }
{
    let (name, rest) = take_text16(bytes)?;
    let (kind, rest) = take_kind(rest)?;
    let (_, rest) = take_filter(rest)?;
    let (values, rest) = FoundColumn::take_body(alloc, rows, kind, rest)?;
    let name = Text::try_of(alloc, name)?;
    Ok((NamedColumn { name, values }, rest))
}
