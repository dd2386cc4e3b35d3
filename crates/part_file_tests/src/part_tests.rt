//! What parts answer.
ghost use Rattle.std.specs.Prelude.{◌<◌, length};

use crate::hex_tests::{bytes_of, push_digits};
use crate::rows_tests::{made_line, rows_of};
use column_block::{Block, Open, Steps};
use part_file::{Part, PartFault, are_part_rows};
use std::alloc::{AllocError, Global};
use std::fmt::Write;
use vl_row::{Batch, Held, Numbered};

/// Tells this counter from others.
#[derive(Drop)]
struct Tests;

pub fn answer(alloc: Global, line: &str) -> Result<String, AllocError> {
    if let Some(digits) = line.strip_prefix("= ") {
        let bytes = bytes_of(alloc, digits)?;
        return read_text(alloc, bytes.as_slice());
    }
    if let Some(text) = line.strip_prefix("batch ") {
        return match rows_of(alloc, text)? {
            Some(rows) => batch_text(alloc, rows),
            None => format!(in alloc; "no row"),
        };
    }
    if let Some(sizes) = line.strip_prefix("made ") {
        return made_text(alloc, sizes);
    }
    match rows_of(alloc, line)? {
        Some(rows) => rows_text(alloc, rows),
        None => format!(in alloc; "no row"),
    }
}

/// The part of these rows, if they make up one.
fn part_of(alloc: Global, rows: Vec<Numbered>) -> Result<Option<Part>, AllocError> {
    if !are_part_rows(alloc, rows.as_slice())? {
        return Ok(None);
    }
    let part = Part::try_of(alloc, rows)?;
    Ok(Some(part))
}

fn rows_text(alloc: Global, rows: Vec<Numbered>) -> Result<String, AllocError> {
    match part_of(alloc, rows)? {
        Some(part) => whole_text(alloc, &part),
        None => format!(in alloc; "no part"),
    }
}

/// What the part of a batch of these rows says under another number of the batch.
fn batch_text(alloc: Global, numbered: Vec<Numbered>) -> Result<String, AllocError> {
    let mut rows = Vec::new(alloc);
    for one in numbered {
        rows.push(one.row)?;
    }
    let Ok(batch) = Batch::try_of(rows) else {
        return format!(in alloc; "no batch");
    };
    let mut part = Part::of_batch(alloc, &batch)?;
    part.set_batch(7);
    whole_text(alloc, &part)
}

/// What the part says, and its bytes.
fn whole_text(alloc: Global, part: &Part) -> Result<String, AllocError> {
    let mut text = part_text(alloc, part)?;
    let bytes = part.to_bytes(alloc)?;
    text.push(' ')?;
    push_digits(&mut text, bytes.as_slice())?;
    Ok(text)
}

/// What the part of these bytes says, or why they are none.
fn read_text(alloc: Global, bytes: &[u8]) -> Result<String, AllocError> {
    match Part::from_bytes(alloc, bytes) {
        Ok(part) => part_text(alloc, &part),
        Err(PartFault::Version { found }) => format!(in alloc; "version {found}"),
        Err(PartFault::Damaged { at }) => format!(in alloc; "damaged at {at}"),
        Err(PartFault::Memory) => Err(AllocError),
    }
}

fn made_text(alloc: Global, sizes: &str) -> Result<String, AllocError> {
    let (rows, rest) = sizes.split_once(' ').unwrap_or((sizes, ""));
    let (streams, columns) = rest.split_once(' ').unwrap_or((rest, ""));
    let line = made_line(
        alloc,
        rows.parse::<u16>().unwrap_or(1),
        streams.parse::<u16>().unwrap_or(1),
        columns.parse::<u16>().unwrap_or(1),
    )?;
    let Some(rows) = rows_of(alloc, line.as_str())? else {
        return format!(in alloc; "no row");
    };
    let Some(part) = part_of(alloc, rows)? else {
        return format!(in alloc; "no part");
    };
    sizes_text(alloc, &part)
}

/// The sizes of the blocks, the length of the bytes, whether they are read again, and where they are damaged without
/// the last one.
fn sizes_text(alloc: Global, part: &Part) -> Result<String, AllocError> {
    let mut text = format!(in alloc; "{} {}", part.rows(), part.weight())?;
    for block in part.blocks() {
        let _ = write!(text, " {}", block.head().rows());
    }
    let bytes = part.to_bytes(alloc)?;
    let again = Part::from_bytes(alloc, bytes.as_slice()).is_ok();
    let cut = match bytes.as_slice() {
        [front @ .., _] => read_text(alloc, front)?,
        [] => String::new(alloc),
    };
    let _ = write!(text, " {} {again} {cut}", bytes.len());
    Ok(text)
}

fn part_text(alloc: Global, part: &Part) -> Result<String, AllocError> {
    let mut text = format!(in alloc; "{} {}", part.rows(), part.weight())?;
    for block in part.blocks() {
        push_block(alloc, &mut text, block)?;
    }
    Ok(text)
}

fn push_block(alloc: Global, text: &mut String, block: &Block) -> Result<(), AllocError> {
    let mut steps: Steps<Tests> = Steps::new();
    let opened = block.open(&mut steps);
    text.push_str(" #")?;
    for label in block.head().stream().as_slice() {
        let _ = write!(text, " {}={}", label.name(), label.value());
    }
    for i in 0..block.head().rows() {
        push_row(alloc, text, &opened, i)?;
    }
    Ok(())
}

fn push_row(alloc: Global, text: &mut String, opened: &Open<'_>, i: usize) -> Result<(), AllocError>
    requires { i < length opened.now }
{
    let (time, batch, place) = opened.key(i);
    let _ = write!(text, " / {time} {batch} {place}");
    let numbered = opened.row(alloc, i)?;
    for field in numbered.row.fields().as_slice() {
        let _ = write!(text, " {}={}", field.name(), field.value());
    }
    Ok(())
}
