//! Blocks of a line.
use block_model::lend;
use column_block::{Block, ColumnNames, is_block};
use std::alloc::{AllocError, Global};
use vl_row::{FieldList, Numbered, Row, Text};

/// Returns the block of these rows, if they make up one.
pub(crate) fn block_of(alloc: Global, text: &str) -> Result<Option<Block>, AllocError> {
    let mut rows = Vec::new(alloc);
    for row in text.split(';') {
        match row_of(alloc, row)? {
            Some(row) => rows.push(row)?,
            None => return Ok(None),
        }
    }
    let lent = lend(alloc, rows.as_slice())?;
    if !is_block(alloc, lent.as_slice())? {
        return Ok(None);
    }
    let mut names = ColumnNames::new(alloc);
    let block = Block::of_lent(alloc, lent.as_slice(), &mut names)?;
    Ok(Some(block))
}

fn row_of(alloc: Global, text: &str) -> Result<Option<Numbered>, AllocError> {
    let (key, rest) = text.split_once('|').unwrap_or((text, ""));
    let (labels, fields) = rest.split_once('|').unwrap_or((rest, ""));
    let (time, rest) = key.split_once(' ').unwrap_or((key, ""));
    let (batch, place) = rest.split_once(' ').unwrap_or((rest, ""));
    let names = names_of(alloc, labels)?;
    let fields = fields_of(alloc, fields)?;
    match Row::try_new(
        alloc,
        time.parse::<i64>().unwrap_or(0),
        names.as_slice(),
        fields,
    ) {
        Ok(row) => Ok(Some(Numbered {
            batch: batch.parse::<u64>().unwrap_or(0),
            place: place.parse::<u32>().unwrap_or(0),
            row,
        })),
        Err(_) => Ok(None),
    }
}

fn names_of(alloc: Global, text: &str) -> Result<Vec<Text>, AllocError> {
    let mut names = Vec::new(alloc);
    for name in text.split(',') {
        names.push(Text::try_of(alloc, name)?)?;
    }
    Ok(names)
}

fn fields_of(alloc: Global, text: &str) -> Result<FieldList, AllocError> {
    let mut fields = FieldList::new(alloc);
    for field in text.split(',') {
        let (name, value) = field.split_once('=').unwrap_or((field, ""));
        if !name.is_empty() {
            fields.set(alloc, name, value)?;
        }
    }
    Ok(fields)
}
