//! Batches whose rows have a message only, and what a look has of them.
ghost use Rattle.turn_lock.specs.Passes.{IsPassOf};

use column_block::{Open, OpenRow, Steps};
use lent_row::{LentRow, Value};
use log_core::Snapshot;
use log_desk::{Desk, Pass};
use part_file::Part;
use std::alloc::{AllocError, Global};
use std::sync::Wait;
use vl_row::{Batch, FieldList, Held, Row};

/// Tells the steps of these tests from others.
#[derive(Drop)]
struct Tested;

/// Returns a row of this time with this message.
fn row_of(alloc: Global, time: i64, message: &str) -> Result<Option<Row>, AllocError> {
    let mut fields = FieldList::new(alloc);
    fields.set(alloc, "_msg", message)?;
    Ok(Row::try_new(alloc, time, &[], fields).ok())
}

/// Returns a batch of one row for each line, with that message.
pub(crate) fn batch_of(alloc: Global, lines: &str) -> Result<Option<Batch>, AllocError> {
    let mut rows = Vec::new(alloc);
    for line in lines.lines() {
        let Some(row) = row_of(alloc, 0, line)? else {
            return Ok(None);
        };
        rows.push(row)?;
    }
    Ok(Batch::try_of(rows).ok())
}

/// Returns a batch of one row for each of these times, each with this message.
pub(crate) fn batch_at(
    alloc: Global,
    times: &[i64],
    message: &str,
) -> Result<Option<Batch>, AllocError> {
    let mut rows = Vec::new(alloc);
    for time in times {
        let Some(row) = row_of(alloc, *time, message)? else {
            return Ok(None);
        };
        rows.push(row)?;
    }
    Ok(Batch::try_of(rows).ok())
}

/// Inserts a batch of one row with this message, and answers its number, or `None` where it is refused.
pub(crate) fn insert_one<R: Wait>(
    rt: &R,
    alloc: Global,
    desk: &Desk,
    pass: &mut Pass,
    message: &str,
) -> Result<Option<u64>, AllocError>
    requires { IsPassOf desk.now pass.old }
    ensures { IsPassOf desk.now pass.new }
{
    let Some(batch) = batch_of(alloc, message)? else {
        return Ok(None);
    };
    Ok(desk.insert(rt, alloc, pass, batch).ok())
}

/// Returns whether there is one row for each line, in this order, with that message.
pub(crate) fn are_rows_of(rows: &[Row], lines: &str) -> bool {
    rows.len() == lines.lines().count()
        && rows
            .iter()
            .zip(lines.lines())
            .all(|(row, line)| row.value("_msg") == line)
}

/// Returns how many rows a look has, whatever their messages.
pub(crate) fn row_count(look: &Snapshot<Part>) -> u64 {
    let mut count: u64 = 0;
    for i in 0..look.len() {
        count = count.saturating_add(look.part(i).rows());
    }
    count
}

/// Returns how many rows of a look have this message.
pub(crate) fn rows_of(look: &Snapshot<Part>, message: &str) -> u64 {
    let mut found: u64 = 0;
    for i in 0..look.len() {
        found = found.saturating_add(rows_with(look.part(i), message));
    }
    found
}

/// Returns how many rows of a part have this message.
pub(crate) fn rows_with(part: &Part, message: &str) -> u64 {
    let mut steps: Steps<Tested> = Steps::new();
    let mut found: u64 = 0;
    for block in part.blocks() {
        let open = block.open(&mut steps);
        found = found.saturating_add(opened_with(&open, message));
    }
    found
}

fn opened_with(open: &Open<'_>, message: &str) -> u64 {
    let mut found: u64 = 0;
    for i in 0..open.len() {
        if has_message(&open.lent(i), message) {
            found = found.saturating_add(1);
        }
    }
    found
}

fn has_message(row: &OpenRow<'_>, message: &str) -> bool {
    match row.value("_msg") {
        Value::Str(text) => text == message,
        Value::Int(number) => message.parse::<i64>().ok() == Some(number),
    }
}
