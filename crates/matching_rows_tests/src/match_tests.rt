//! The rows of blocks that match.
use crate::block_tests::block_of;
use column_block::{Block, OpenRow, Steps};
use lent_row::{LentRow, Value};
use lq_ast::Query;
use lq_filter::{Prepared, prepare};
use lq_parse::parse;
use matching_rows::matching_rows;
use std::alloc::{AllocError, Global};
use std::fmt::Write;

/// Tells this counter from others.
#[derive(Drop)]
struct Tests;

pub(crate) fn answer(alloc: Global, line: &str) -> Result<String, AllocError> {
    let (query, blocks) = line.split_once('\t').unwrap_or((line, ""));
    let Some(blocks) = blocks_of(alloc, blocks)? else {
        return format!(in alloc; "no block");
    };
    let query = read(alloc, query)?;
    match prepare(alloc, &query) {
        Ok(prepared) => matched_text(alloc, &prepared, blocks.as_slice()),
        Err(fault) => format!(in alloc; "{fault:?}"),
    }
}

fn read(alloc: Global, text: &str) -> Result<Query, AllocError> {
    parse(alloc, text).map_err(|_| AllocError)
}

/// Returns the blocks, none for an empty text.
fn blocks_of(alloc: Global, text: &str) -> Result<Option<Vec<Block>>, AllocError> {
    let mut blocks = Vec::new(alloc);
    if text.is_empty() {
        return Ok(Some(blocks));
    }
    for rows in text.split('\t') {
        match block_of(alloc, rows)? {
            Some(block) => blocks.push(block)?,
            None => return Ok(None),
        }
    }
    Ok(Some(blocks))
}

/// Returns what is said of the rows that match.
fn matched_text(alloc: Global, filter: &Prepared, blocks: &[Block]) -> Result<String, AllocError> {
    let mut steps = Steps::<Tests>::new();
    let mut opened = Vec::with_capacity(alloc, blocks.len())?;
    for block in blocks {
        opened.push(block.open(&mut steps))?;
    }
    match matching_rows(alloc, filter, 0, opened.as_slice()) {
        Ok(rows) => rows_text(alloc, rows.as_slice()),
        Err(fault) => format!(in alloc; "{fault:?}"),
    }
}

/// Returns the time and the value of `n` of each row.
fn rows_text(alloc: Global, rows: &[OpenRow<'_>]) -> Result<String, AllocError> {
    let mut text = String::new(alloc);
    for row in rows {
        let time = row.time();
        match row.value("n") {
            Value::Str(value) => write!(text, "{time} {value} / ")?,
            Value::Int(value) => write!(text, "{time} {value} / ")?,
        }
    }
    Ok(text)
}
