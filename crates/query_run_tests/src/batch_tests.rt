//! Batches of a line, and a look at them.
ghost use Rattle.turn_lock.specs.Passes.{IsPassOf};

use log_core::Snapshot;
use log_desk::{Desk, Pass};
use part_file::Part;
use std::alloc::{AllocError, Global};
use std::sync::Wait;
use vl_row::{Batch, FieldList, Row, Text};

/// Returns what a look has once these batches are inserted, if they all can be. Of an empty text there is none.
pub(crate) fn snapshot_of<R: Wait>(
    rt: &R,
    alloc: Global,
    text: &str,
) -> Result<Option<Snapshot<Part>>, AllocError> {
    let (desk, mut pass) = Desk::fresh(rt, alloc, 1)?;
    if !text.is_empty() && !insert_all(rt, alloc, &desk, &mut pass, text)? {
        return Ok(None);
    }
    Ok(Some(desk.look(rt, &mut pass)?))
}

/// Inserts these batches, and returns whether they all could be.
fn insert_all<R: Wait>(
    rt: &R,
    alloc: Global,
    desk: &Desk,
    pass: &mut Pass,
    text: &str,
) -> Result<bool, AllocError>
    requires { IsPassOf desk.now pass.old }
    ensures { IsPassOf desk.now pass.new }
{
    for rows in text.split('\t') {
        let Some(batch) = batch_of(alloc, rows)? else {
            return Ok(false);
        };
        if desk.insert(rt, alloc, pass, batch).is_err() {
            return Ok(false);
        }
    }
    Ok(true)
}

fn batch_of(alloc: Global, text: &str) -> Result<Option<Batch>, AllocError> {
    let mut rows = Vec::new(alloc);
    for row in text.split(';') {
        match row_of(alloc, row)? {
            Some(row) => rows.push(row)?,
            None => return Ok(None),
        }
    }
    Ok(Batch::try_of(rows).ok())
}

fn row_of(alloc: Global, text: &str) -> Result<Option<Row>, AllocError> {
    let (time, rest) = text.split_once('|').unwrap_or((text, ""));
    let (labels, fields) = rest.split_once('|').unwrap_or((rest, ""));
    let names = names_of(alloc, labels)?;
    let fields = fields_of(alloc, fields)?;
    let time = time.parse::<i64>().unwrap_or(0);
    Ok(Row::try_new(alloc, time, names.as_slice(), fields).ok())
}

fn names_of(alloc: Global, text: &str) -> Result<Vec<Text>, AllocError> {
    let mut names = Vec::new(alloc);
    for name in text.split(',') {
        names.push(Text::try_of(alloc, name)?)?;
    }
    Ok(names)
}

fn fields_of(alloc: Global, text: &str) -> Result<FieldList, AllocError> {
    let mut fields = FieldList::new(alloc);
    for field in text.split(',') {
        let (name, value) = field.split_once('=').unwrap_or((field, ""));
        if !name.is_empty() {
            fields.set(alloc, name, value)?;
        }
    }
    Ok(fields)
}
