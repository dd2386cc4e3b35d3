//! Pipes over rows, and over their records. After `5x` the rows are taken five times, which are more than become
//! records at a time.
use crate::lent_tests::Lent;
use crate::notation_tests::pipes_of;
use crate::pipe_tests::{made, shown};
use lq_ast::Pipe;
use lq_pipes::{apply_rows, rec_of};
use lq_tuple::HashSeed;
use std::alloc::{AllocError, Global};
use vl_row::{FieldList, Row, Text};

/// Returns the lines of what these pipes make of the rows. The lines that they make of the rows' records are to be the
/// same, and those that they make of the rows as they may lie in columns.
pub fn answer_of_rows(alloc: Global, pipes: &str, rows: &[Row]) -> Result<Text, AllocError> {
    let (times, pipes) = match pipes.strip_prefix("5x ") {
        Some(pipes) => (5, pipes),
        None => (1, pipes),
    };
    let rows = repeated(alloc, rows, times)?;
    let pipes = pipes_of(alloc, pipes)?;
    let of_records = made(alloc, &pipes, records_of(alloc, &rows)?)?;
    let of_lent = made_of_lent(alloc, &pipes, &rows)?;
    let mut answer = made_of_rows(alloc, &pipes, rows)?;
    if answer.as_str() != of_lent.as_str() {
        answer.push_str(alloc, "and of lent rows\n")?;
        answer.push_str(alloc, of_lent.as_str())?;
    }
    if answer.as_str() != of_records.as_str() {
        answer.push_str(alloc, "and of records\n")?;
        answer.push_str(alloc, of_records.as_str())?;
    }
    Ok(answer)
}

/// All rows, one time after another.
fn repeated<'r>(alloc: Global, rows: &'r [Row], times: usize) -> Result<Vec<&'r Row>, AllocError> {
    let mut repeated = Vec::new(alloc);
    for _ in 0..times {
        for row in rows {
            repeated.push(row)?;
        }
    }
    Ok(repeated)
}

fn made_of_rows(alloc: Global, pipes: &[Pipe], rows: Vec<&Row>) -> Result<Text, AllocError> {
    if rows.len() > 1000 {
        return Text::try_of(alloc, "too many rows\n");
    }
    shown(alloc, apply_rows(alloc, HashSeed::fixed(), pipes, rows))
}

fn made_of_lent(alloc: Global, pipes: &[Pipe], rows: &[&Row]) -> Result<Text, AllocError> {
    let lent = all_lent(alloc, rows)?;
    if lent.len() > 1000 {
        return Text::try_of(alloc, "too many rows\n");
    }
    shown(alloc, apply_rows(alloc, HashSeed::fixed(), pipes, lent))
}

fn all_lent<'r>(alloc: Global, rows: &[&'r Row]) -> Result<Vec<Lent<'r>>, AllocError> {
    let mut lent = Vec::with_capacity(alloc, rows.len())?;
    for row in rows {
        if let Some(row) = Lent::of(*row) {
            lent.push(row)?;
        }
    }
    Ok(lent)
}

fn records_of(alloc: Global, rows: &[&Row]) -> Result<Vec<FieldList>, AllocError> {
    let mut records = Vec::new(alloc);
    for row in rows {
        records.push(rec_of(alloc, *row)?)?;
    }
    Ok(records)
}
