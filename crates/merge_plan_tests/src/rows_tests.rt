//! Rows of lines.
use std::alloc::{AllocError, Global};
use vl_row::{FieldList, Numbered, Row, Text};

/// The rows, or `None` if one of them is none.
pub fn rows_of(alloc: Global, line: &str) -> Result<Option<Vec<Numbered>>, AllocError> {
    let mut rows = Vec::new(alloc);
    for text in line.split(';') {
        match row_of(alloc, text)? {
            Some(row) => rows.push(row)?,
            None => return Ok(None),
        }
    }
    Ok(Some(rows))
}

fn row_of(alloc: Global, text: &str) -> Result<Option<Numbered>, AllocError> {
    let (key, rest) = text.split_once('|').unwrap_or((text, ""));
    let (labels, fields) = rest.split_once('|').unwrap_or((rest, ""));
    let (time, rest) = key.split_once(' ').unwrap_or((key, ""));
    let (batch, place) = rest.split_once(' ').unwrap_or((rest, ""));
    let names = names_of(alloc, labels)?;
    let fields = fields_of(alloc, fields)?;
    match Row::try_new(
        alloc,
        time.parse::<i64>().unwrap_or(0),
        names.as_slice(),
        fields,
    ) {
        Ok(row) => Ok(Some(Numbered {
            batch: batch.parse::<u64>().unwrap_or(0),
            place: place.parse::<u32>().unwrap_or(0),
            row,
        })),
        Err(_) => Ok(None),
    }
}

fn names_of(alloc: Global, text: &str) -> Result<Vec<Text>, AllocError> {
    let mut names = Vec::new(alloc);
    for name in text.split(',') {
        names.push(Text::try_of(alloc, name)?)?;
    }
    Ok(names)
}

fn fields_of(alloc: Global, text: &str) -> Result<FieldList, AllocError> {
    let mut fields = FieldList::new(alloc);
    for field in text.split(',') {
        let (name, value) = field.split_once('=').unwrap_or((field, ""));
        if !name.is_empty() {
            fields.set(alloc, name, value)?;
        }
    }
    Ok(fields)
}
