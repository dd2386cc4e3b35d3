//! The lines of rows: by the printer, by the plain program, and of their records.
use crate::lent_tests::Lent;
use crate::plain_tests::write_row;
use lq_pipes::{Printer, lines, rec_of};
use std::alloc::{AllocError, Global};
use vl_row::{FieldList, Recs, Row, Text, number};

pub fn printed(alloc: Global, rows: &[Row]) -> Result<Text, AllocError> {
    let mut printer = Printer::new(alloc)?;
    let mut out = Text::try_of(alloc, "printed\n")?;
    for row in rows {
        printer.write_row(alloc, row, &mut out)?;
    }
    Ok(out)
}

/// Returns the same, of the rows as they may lie in columns.
pub fn printed_lent(alloc: Global, rows: &[Row]) -> Result<Text, AllocError> {
    let mut printer = Printer::new(alloc)?;
    let mut out = Text::try_of(alloc, "printed\n")?;
    for row in rows {
        if let Some(lent) = Lent::of(row) {
            printer.write_row(alloc, &lent, &mut out)?;
        }
    }
    Ok(out)
}

pub fn plainly_printed(alloc: Global, rows: &[Row]) -> Result<Vec<u8>, AllocError> {
    let mut out = Vec::from_slice(alloc, b"plainly printed\n")?;
    for row in rows {
        write_row(alloc, row, &mut out)?;
    }
    Ok(out)
}

pub fn of_records(alloc: Global, rows: &[Row]) -> Result<Text, AllocError> {
    let mut records = Recs::new(alloc);
    for row in rows {
        let record = rec_of(alloc, row)?;
        if records.push(record).is_err() {
            return Err(AllocError);
        }
    }
    let mut out = Text::try_of(alloc, "of records\n")?;
    lines(alloc, &records, &mut out)?;
    Ok(out)
}

pub fn rows_of(alloc: Global, cases: &str) -> Result<Vec<Row>, AllocError> {
    let mut rows = Vec::new(alloc);
    for case in cases.split("\n---\n") {
        if let Some(row) = row_of(alloc, case)? {
            rows.push(row)?;
        }
    }
    Ok(rows)
}

/// Returns the row of a case. None where it is not a case.
fn row_of(alloc: Global, case: &str) -> Result<Option<Row>, AllocError> {
    let Some((time, labelled)) = case.split_once('\t') else {
        return Ok(None);
    };
    let (Some(time), Some((names, fields))) = (number(time), labelled.split_once('\t')) else {
        return Ok(None);
    };
    let names = texts_of(alloc, names)?;
    Ok(Row::try_new(alloc, time, names.as_slice(), fields_of(alloc, fields)?).ok())
}

fn texts_of(alloc: Global, names: &str) -> Result<Vec<Text>, AllocError> {
    let mut texts = Vec::new(alloc);
    for name in names.split(',') {
        texts.push(Text::try_of(alloc, name)?)?;
    }
    Ok(texts)
}

fn fields_of(alloc: Global, fields: &str) -> Result<FieldList, AllocError> {
    let mut list = FieldList::new(alloc);
    for field in fields.split('\t') {
        if let Some((name, value)) = field.split_once('=') {
            if !name.is_empty() {
                list.set(alloc, name, value)?;
            }
        }
    }
    Ok(list)
}
