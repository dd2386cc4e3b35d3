//! The masks of a block.
use crate::block_tests::block_of;
use block_scan::{Mask, Scanner, scan};
use column_block::{Block, Open, Steps};
use lq_ast::Query;
use lq_filter::{Prepared, prepare};
use lq_parse::parse;
use std::alloc::{AllocError, Global};

/// The moment of each scan, in nanoseconds since 1970.
const NOW: i64 = 5_000_000_000;

/// Tells this counter from others.
#[derive(Drop)]
struct Tests;

pub(crate) fn answer(alloc: Global, line: &str) -> Result<String, AllocError> {
    let (query, rows) = line.split_once('\t').unwrap_or((line, ""));
    let Some(block) = block_of(alloc, rows)? else {
        return format!(in alloc; "no block");
    };
    let query = read(alloc, query)?;
    match prepare(alloc, &query) {
        Ok(prepared) => masks_text(alloc, &prepared, &block),
        Err(fault) => format!(in alloc; "{fault:?}"),
    }
}

fn read(alloc: Global, text: &str) -> Result<Query, AllocError> {
    parse(alloc, text).map_err(|_| AllocError)
}

/// Returns the mask, or all of them where they differ.
fn masks_text(alloc: Global, filter: &Prepared, block: &Block) -> Result<String, AllocError> {
    let mut steps = Steps::<Tests>::new();
    let opened = block.open(&mut steps);
    let alone = text_of(alloc, &scan(alloc, &opened, filter, NOW)?)?;
    let mut scanner = Scanner::new(alloc, filter, NOW);
    let first = text_of(alloc, &scanner.scan(&opened)?)?;
    let second = text_of(alloc, &scanner.scan(&opened)?)?;
    let plain = plain_text(alloc, filter, &opened)?;
    if alone == first && alone == second && alone == plain {
        return Ok(alone);
    }
    format!(in alloc; "{alone} {first} {second} {plain}")
}

fn text_of(alloc: Global, mask: &Mask) -> Result<String, AllocError> {
    let mut text = String::new(alloc);
    for i in 0..mask.len() {
        text.push(digit(mask.at(i)))?;
    }
    Ok(text)
}

/// Asks one row after another.
fn plain_text(alloc: Global, filter: &Prepared, opened: &Open<'_>) -> Result<String, AllocError> {
    let mut scan = filter.scan(alloc, NOW);
    let mut text = String::new(alloc);
    for i in 0..opened.len() {
        text.push(digit(scan.holds(&opened.lent(i))?))?;
    }
    Ok(text)
}

fn digit(holds: bool) -> char {
    if holds { '1' } else { '0' }
}
