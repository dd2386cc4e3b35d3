//! Parts of lines.

use part_batches::are_batches;
use part_file::{Part, are_part_rows};
use std::alloc::{AllocError, Global};
use std::fmt::Write;
use std::sync::Arc;
use vl_row::{FieldList, Numbered, Row};

/// Returns what is written of a line.
pub fn answer(alloc: Global, line: &str) -> Result<String, AllocError> {
    if let Some(sizes) = line.strip_prefix("made ") {
        return made(alloc, sizes);
    }
    let (front, parts) = line.split_once('|').unwrap_or((line, ""));
    let front = front.parse::<u64>().unwrap_or(0);
    match parts_of(alloc, parts)? {
        Some(parts) => are_batches(alloc, &parts, front)?.to_string(alloc),
        None => String::from_str(alloc, "no part"),
    }
}

/// Returns the parts, or `None` if one of them is none.
fn parts_of(alloc: Global, text: &str) -> Result<Option<Vec<Arc<Part>>>, AllocError> {
    let mut parts = Vec::new(alloc);
    for each in text.split('|') {
        if each.is_empty() {
            continue;
        }
        match part_of(alloc, each)? {
            Some(part) => parts.push(Arc::new(alloc, part)?)?,
            None => return Ok(None),
        }
    }
    Ok(Some(parts))
}

/// Returns the part of these rows, if they make up one.
fn part_of(alloc: Global, text: &str) -> Result<Option<Part>, AllocError> {
    let Some(rows) = rows_of(alloc, text)? else {
        return Ok(None);
    };
    if !are_part_rows(alloc, rows.as_slice())? {
        return Ok(None);
    }
    let part = Part::try_of(alloc, rows)?;
    Ok(Some(part))
}

/// Returns the rows, or `None` if one of them is none.
fn rows_of(alloc: Global, text: &str) -> Result<Option<Vec<Numbered>>, AllocError> {
    let mut rows = Vec::new(alloc);
    for number in text.split(',') {
        match row_of(alloc, number)? {
            Some(row) => rows.push(row)?,
            None => return Ok(None),
        }
    }
    Ok(Some(rows))
}

/// Returns a row of this number. Later places have earlier times.
fn row_of(alloc: Global, number: &str) -> Result<Option<Numbered>, AllocError> {
    let (batch, place) = number.split_once(' ').unwrap_or((number, ""));
    let batch = batch.parse::<u64>().unwrap_or(0);
    let place = place.parse::<u32>().unwrap_or(0);
    let mut fields = FieldList::new(alloc);
    fields.set(alloc, "_msg", "a")?;
    match Row::try_new(alloc, (u32::MAX - place) as i64, &[], fields) {
        Ok(row) => Ok(Some(Numbered { batch, place, row })),
        Err(_) => Ok(None),
    }
}

/// Returns what is written of rows that are spread over parts.
fn made(alloc: Global, sizes: &str) -> Result<String, AllocError> {
    let (front, rest) = sizes.split_once(' ').unwrap_or((sizes, ""));
    let (rows, parts) = rest.split_once(' ').unwrap_or((rest, ""));
    let front = front.parse::<u16>().unwrap_or(1);
    let rows = rows.parse::<u16>().unwrap_or(1);
    let line = made_line(alloc, front, rows, parts.parse::<u16>().unwrap_or(1))?;
    match parts_of(alloc, line.as_str())? {
        Some(parts) => are_batches(alloc, &parts, front as u64)?.to_string(alloc),
        None => String::from_str(alloc, "no part"),
    }
}

/// Returns so many batches of so many rows, over which so many parts go in turn.
fn made_line(alloc: Global, front: u16, rows: u16, parts: u16) -> Result<String, AllocError> {
    let mut line = String::new(alloc);
    for part in 0..parts {
        push_part(&mut line, front, rows, (part, parts))?;
    }
    Ok(line)
}

/// Appends one part, which is one of so many.
fn push_part(
    line: &mut String,
    front: u16,
    rows: u16,
    (part, parts): (u16, u16),
) -> Result<(), AllocError> {
    let mut bar = "|";
    for number in 0..front as u32 * rows as u32 {
        if number.checked_rem(parts as u32) != Some(part as u32) {
            continue;
        }
        let batch = number.checked_div(rows as u32).unwrap_or(0) + 1;
        let place = number.checked_rem(rows as u32).unwrap_or(0);
        let _ = write!(line, "{bar}{batch} {place}");
        bar = ",";
    }
    Ok(())
}
