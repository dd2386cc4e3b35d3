//! Tests of the rows of a trial, against those of a separate Python program.
use std::alloc::{AllocError, Global};
use vl_row::{Field, Row};
use vl_trial::TrialBatches;

/// Seeds, of which the first rows are printed.
const FIRST: &[u64] = &[0, 10, 9_223_372_036_854_775_807];

/// Seeds, and how many rows.
const LAST: &[(u64, u64)] = &[
    (3, 0),
    (0, 1),
    (0, 999),
    (0, 1_000),
    (0, 1_001),
    (7, 2_500),
    (123_456_789, 2_000),
];

/// Appends the first rows of some trials, and the last rows of others.
pub fn write_all(alloc: Global, text: &mut String) -> Result<(), AllocError> {
    for seed in FIRST {
        let made = first_rows(alloc, *seed, 4)?;
        write!(text, "first rows of {seed}\n{made}")?;
    }
    write_last(alloc, text)
}

/// Appends how many rows each batch of a trial has, and its last row.
fn write_last(alloc: Global, text: &mut String) -> Result<(), AllocError> {
    for (seed, rows) in LAST {
        let made = run(alloc, *seed, *rows)?;
        let sizes = made.sizes.as_str();
        let last = made.last.as_str();
        write!(text, "last of {rows} rows of {seed}: {sizes}\n{last}")?;
    }
    Ok(())
}

/// Writes the fields.
fn push_fields(text: &mut String, fields: &[Field]) -> Result<(), AllocError> {
    for field in fields {
        write!(text, "{}={} ", field.name(), field.value())?;
    }
    Ok(())
}

/// Writes a line of the moment, the labels and the fields of a row.
fn push_row(text: &mut String, row: &Row) -> Result<(), AllocError> {
    write!(text, "{} ", row.time())?;
    push_fields(text, row.stream().as_slice())?;
    text.push_str("| ")?;
    push_fields(text, row.fields().as_slice())?;
    text.push('\n')
}

/// Returns the first rows of a seed.
fn first_rows(alloc: Global, seed: u64, rows: u64) -> Result<String, AllocError> {
    let mut text = String::new(alloc);
    if rows <= 1_000 {
        if let Some(batch) = TrialBatches::new(seed, rows).next_batch(alloc)? {
            for row in batch.rows() {
                push_row(&mut text, row)?;
            }
        }
    }
    Ok(text)
}

/// How many rows each batch of a trial has, and the last row of all.
#[derive(Drop)]
struct Whole {
    sizes: String,
    last: String,
}

impl Whole {
    fn add(&mut self, alloc: Global, rows: &[Row]) -> Result<(), AllocError> {
        write!(self.sizes, "{} ", rows.len())?;
        if let Some(row) = rows.last() {
            self.last = String::new(alloc);
            push_row(&mut self.last, row)?;
        }
        Ok(())
    }
}

fn run(alloc: Global, seed: u64, rows: u64) -> Result<Whole, AllocError> {
    let mut made = Whole {
        sizes: String::new(alloc),
        last: String::new(alloc),
    };
    if rows <= 1_000_000 {
        let mut batches = TrialBatches::new(seed, rows);
        for _ in 0..=rows / 1_000 + 1 {
            if let Some(batch) = batches.next_batch(alloc)? {
                made.add(alloc, batch.rows())?;
            }
        }
    }
    Ok(made)
}
