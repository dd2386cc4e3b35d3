//! Which blocks a query needs.
ghost use Rattle.std.specs.Prelude.{◌≡◌};
ghost use Rattle.lq_ast.specs.View.{condition};
ghost use Rattle.lq_filter.specs.Tree.{condition_of};

use crate::block_tests::block_of;
use column_block::{Block, Open, Steps};
use lq_ast::Query;
use lq_filter::{Prepared, prepare};
use lq_parse::parse;
use lq_prune::{Need, needs};
use std::alloc::{AllocError, Global};
use std::fmt::Write;

/// Tells this counter from others.
#[derive(Drop)]
struct Tests;

pub(crate) fn answer(alloc: Global, line: &str) -> Result<String, AllocError> {
    let (now, rest) = line.split_once('\t').unwrap_or((line, ""));
    let (text, blocks) = rest.split_once('\t').unwrap_or((rest, ""));
    let Ok(query) = parse(alloc, text) else {
        return format!(in alloc; "no query");
    };
    match prepare(alloc, &query) {
        Ok(prepared) => asked(
            alloc,
            &query,
            &prepared,
            now.parse::<i64>().unwrap_or(0),
            blocks,
        ),
        Err(fault) => format!(in alloc; "{fault:?}"),
    }
}

fn asked(
    alloc: Global,
    query: &Query,
    prepared: &Prepared,
    now: i64,
    blocks: &str,
) -> Result<String, AllocError>
    requires { condition_of prepared.now ≡ condition query.now.filter }
{
    let mut need = needs(alloc, query, prepared, now)?;
    let mut answer = String::new(alloc);
    for rows in blocks.split('\t') {
        let Some(block) = block_of(alloc, rows)? else {
            answer.push_str("no block / ")?;
            continue;
        };
        let admitted = is_admitted(alloc, &mut need, &block)?;
        let count = matches(alloc, prepared, now, &block)?;
        let word = if admitted { "yes" } else { "no" };
        write!(answer, "{word} {count} / ")?;
    }
    Ok(answer)
}

/// Whether the block may have rows that hold.
fn is_admitted(alloc: Global, need: &mut Need<'_>, block: &Block) -> Result<bool, AllocError> {
    let head = block.head();
    need.bind(alloc, head.stream())?;
    Ok(need.admits(head))
}

/// How many rows of the block hold.
fn matches(
    alloc: Global,
    prepared: &Prepared,
    now: i64,
    block: &Block,
) -> Result<usize, AllocError> {
    let mut steps = Steps::<Tests>::new();
    let opened = block.open(&mut steps);
    let mut places = Vec::new(alloc);
    for i in 0..opened.len() {
        if prepared.holds(alloc, now, &opened.lent(i))? {
            places.push(i)?;
        }
    }
    Ok(places.len())
}
