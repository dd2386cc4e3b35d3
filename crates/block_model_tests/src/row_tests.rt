//! The columns of rows.

use block_model::{
    Key, NumberedRef, Recent, column_names, column_values, lend, numbered_row, row_keys,
};
use std::alloc::{AllocError, Global};
use std::fmt::Write;
use vl_row::{FieldList, Numbered, Row, Text};

pub fn answer(alloc: Global, line: &str) -> Result<String, AllocError> {
    if let Some(text) = line.strip_prefix("row ") {
        return match row_of(alloc, text)? {
            Some(numbered) => again_text(alloc, &numbered),
            None => format!(in alloc; "no row"),
        };
    }
    if let Some(list) = line.strip_prefix("recent ") {
        return recent_text(alloc, list);
    }
    let mut rows = Vec::new(alloc);
    for text in line.split(';') {
        match row_of(alloc, text)? {
            Some(numbered) => rows.push(numbered)?,
            None => return format!(in alloc; "no row"),
        }
    }
    let lent = lend(alloc, rows.as_slice())?;
    columns_text(alloc, lent.as_slice())
}

fn row_of(alloc: Global, text: &str) -> Result<Option<Numbered>, AllocError> {
    let (key, rest) = text.split_once('|').unwrap_or((text, ""));
    let (fields, labels) = rest.split_once('|').unwrap_or((rest, ""));
    let (time, rest) = key.split_once(' ').unwrap_or((key, ""));
    let (batch, place) = rest.split_once(' ').unwrap_or((rest, ""));
    let names = names_of(alloc, labels)?;
    let fields = fields_of(alloc, fields)?;
    match Row::try_new(
        alloc,
        time.parse::<i64>().unwrap_or(0),
        names.as_slice(),
        fields,
    ) {
        Ok(row) => Ok(Some(Numbered {
            batch: batch.parse::<u64>().unwrap_or(0),
            place: place.parse::<u32>().unwrap_or(0),
            row,
        })),
        Err(_) => Ok(None),
    }
}

fn fields_of(alloc: Global, text: &str) -> Result<FieldList, AllocError> {
    let mut fields = FieldList::new(alloc);
    for field in text.split(',') {
        let (name, value) = field.split_once('=').unwrap_or((field, ""));
        if !name.is_empty() {
            fields.set(alloc, name, value)?;
        }
    }
    Ok(fields)
}

fn names_of(alloc: Global, text: &str) -> Result<Vec<Text>, AllocError> {
    let mut names = Vec::new(alloc);
    for name in text.split(',') {
        names.push(Text::try_of(alloc, name)?)?;
    }
    Ok(names)
}

/// The row that is made again of the stream, the key and the fields of a row.
fn again_text(alloc: Global, numbered: &Numbered) -> Result<String, AllocError> {
    let again = again(alloc, numbered)?;
    let mut text = format!(in alloc; "{} {} {}", again.row.time(), again.batch, again.place)?;
    for label in again.row.stream().as_slice() {
        let _ = write!(text, " {{{}={}}}", label.name(), label.value());
    }
    for field in again.row.fields().as_slice() {
        let _ = write!(text, " {}={}", field.name(), field.value());
    }
    Ok(text)
}

fn again(alloc: Global, numbered: &Numbered) -> Result<Numbered, AllocError> {
    let fields = numbered.row.fields().try_copy(alloc)?;
    let key = Key {
        time: numbered.row.time(),
        batch: numbered.batch,
        place: numbered.place,
    };
    numbered_row(alloc, numbered.row.stream(), key, fields)
}

fn columns_text(alloc: Global, rows: &[NumberedRef<'_>]) -> Result<String, AllocError> {
    let mut text = String::new(alloc);
    let keys = row_keys(alloc, rows)?;
    for key in &keys {
        let _ = write!(text, "{} {} {} ", key.time, key.batch, key.place);
    }
    let names = column_names(alloc, rows)?;
    for name in &names {
        let _ = write!(text, "/ {}", name.as_str());
        let values = column_values(alloc, rows, name.as_str())?;
        for value in &values {
            let _ = write!(text, " [{value}]");
        }
    }
    Ok(text)
}

/// Of each text whether it was new to its slot. In the beginning the first is in each.
fn recent_text(alloc: Global, list: &str) -> Result<String, AllocError> {
    let (first, _) = list.split_once(',').unwrap_or((list, ""));
    let mut recent = Recent::new(alloc, first)?;
    let mut answer = String::new(alloc);
    for text in list.split(',') {
        let _ = write!(answer, " {text}:{}", recent.insert(text));
    }
    Ok(answer)
}
