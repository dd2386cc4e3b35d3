//! Rows of lines, parts of them, and their text.
use column_block::{Block, Steps};
use part_file::{Part, are_part_rows};
use std::alloc::{AllocError, Global};
use std::fmt::Write;
use vl_row::{Field, FieldList, Numbered, Row, Text};

/// Tells the steps of these tests from others.
#[derive(Drop)]
struct Listed;

/// Returns the rows, or `None` if one of them is none.
pub fn rows_of(alloc: Global, text: &str) -> Result<Option<Vec<Numbered>>, AllocError> {
    let mut rows = Vec::new(alloc);
    for one in text.split(';') {
        match row_of(alloc, one)? {
            Some(row) => rows.push(row)?,
            None => return Ok(None),
        }
    }
    Ok(Some(rows))
}

/// Returns a part of the rows, or `None` if they are not those of a part.
pub fn part_of(alloc: Global, text: &str) -> Result<Option<Part>, AllocError> {
    let Some(rows) = rows_of(alloc, text)? else {
        return Ok(None);
    };
    if !are_part_rows(alloc, rows.as_slice())? {
        return Ok(None);
    }
    let part = Part::try_of(alloc, rows)?;
    Ok(Some(part))
}

fn row_of(alloc: Global, text: &str) -> Result<Option<Numbered>, AllocError> {
    let (key, rest) = text.split_once('|').unwrap_or((text, ""));
    let (labels, fields) = rest.split_once('|').unwrap_or((rest, ""));
    let (time, rest) = key.split_once(' ').unwrap_or((key, ""));
    let (batch, place) = rest.split_once(' ').unwrap_or((rest, ""));
    let names = names_of(alloc, labels)?;
    let fields = fields_of(alloc, fields)?;
    match Row::try_new(
        alloc,
        time.parse::<i64>().unwrap_or(0),
        names.as_slice(),
        fields,
    ) {
        Ok(row) => Ok(Some(Numbered {
            batch: batch.parse::<u64>().unwrap_or(0),
            place: place.parse::<u32>().unwrap_or(0),
            row,
        })),
        Err(_) => Ok(None),
    }
}

fn names_of(alloc: Global, text: &str) -> Result<Vec<Text>, AllocError> {
    let mut names = Vec::new(alloc);
    for name in text.split(',') {
        names.push(Text::try_of(alloc, name)?)?;
    }
    Ok(names)
}

fn fields_of(alloc: Global, text: &str) -> Result<FieldList, AllocError> {
    let mut fields = FieldList::new(alloc);
    for field in text.split(',') {
        let (name, value) = field.split_once('=').unwrap_or((field, ""));
        if !name.is_empty() {
            fields.set(alloc, name, value)?;
        }
    }
    Ok(fields)
}

/// Appends the rows of blocks, one after another.
pub fn put_blocks(alloc: Global, text: &mut String, blocks: &[Block]) -> Result<(), AllocError> {
    for i in 0..blocks.len() {
        if 0 < i {
            text.push_str(";")?;
        }
        put_block(alloc, text, &blocks[i])?;
    }
    Ok(())
}

/// Appends the rows of a block.
pub fn put_block(alloc: Global, text: &mut String, block: &Block) -> Result<(), AllocError> {
    let mut steps: Steps<Listed> = Steps::new();
    let open = block.open(&mut steps);
    for i in 0..open.len() {
        if 0 < i {
            text.push_str(";")?;
        }
        put_row(text, &open.row(alloc, i)?)?;
    }
    Ok(())
}

fn put_row(text: &mut String, numbered: &Numbered) -> Result<(), AllocError> {
    let row = &numbered.row;
    let _ = write!(
        text,
        "{} {} {}|",
        row.time(),
        numbered.batch,
        numbered.place
    );
    let labels = row.stream().as_slice();
    for i in 0..labels.len() {
        put_name(text, i, labels[i].name())?;
    }
    text.push_str("|")?;
    put_fields(text, row.fields().as_slice())
}

fn put_fields(text: &mut String, fields: &[Field]) -> Result<(), AllocError> {
    for i in 0..fields.len() {
        put_name(text, i, fields[i].name())?;
        text.push_str("=")?;
        text.push_str(fields[i].value())?;
    }
    Ok(())
}

/// Appends a name, after a comma where it is not the first.
fn put_name(text: &mut String, place: usize, name: &str) -> Result<(), AllocError> {
    if 0 < place {
        text.push_str(",")?;
    }
    text.push_str(name)?;
    Ok(())
}
