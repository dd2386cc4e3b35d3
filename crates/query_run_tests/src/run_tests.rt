//! What `run_query` finds.
use crate::batch_tests::snapshot_of;
use crate::search_tests::searched;
use log_core::Snapshot;
use lq_parse::parse;
use lq_pipes::lines;
use part_file::Part;
use query_run::{RunFault, Steps, run_query};
use std::alloc::{AllocError, AllocGlobal, Global};
use std::fmt::Write;
use std::random::RandomSource;
use std::sync::Wait;
use vl_row::{Recs, Text};

/// Tells this counter from others.
#[derive(Drop)]
pub(crate) struct Tests;

/// The moment of all queries: 10 seconds after the start of 1970.
pub(crate) const NOW: i64 = 10_000_000_000;

/// Returns what is said of this line.
pub(crate) fn answer<R: AllocGlobal + RandomSource + Wait>(
    rt: &R,
    line: &str,
    steps: &mut Steps<Tests>,
) -> Result<String, AllocError> {
    let alloc = rt.alloc();
    let (text, batches) = line.split_once('\t').unwrap_or((line, ""));
    match snapshot_of(rt, alloc, batches)? {
        Some(snapshot) => said_of(rt, alloc, text, &snapshot, steps),
        None => format!(in alloc; "no batch"),
    }
}

/// Returns what is said of a query over a look.
fn said_of<R: RandomSource>(
    rt: &R,
    alloc: Global,
    text: &str,
    snapshot: &Snapshot<Part>,
    steps: &mut Steps<Tests>,
) -> Result<String, AllocError> {
    let before = steps.count();
    let found = run(rt, alloc, text, snapshot, steps)?;
    let rose = steps.count().saturating_sub(before);
    let searched = searched(rt, alloc, text, snapshot)?;
    let same = found.as_str() == searched.said.as_str();
    let as_many = rose == searched.steps;
    let mut said = joined(alloc, found.as_str())?;
    write!(said, "{rose} steps ; {same} ; {as_many}")?;
    Ok(said)
}

/// Returns what `run_query` finds.
fn run<R: RandomSource>(
    rt: &R,
    alloc: Global,
    text: &str,
    snapshot: &Snapshot<Part>,
    steps: &mut Steps<Tests>,
) -> Result<String, AllocError> {
    match parse(alloc, text) {
        Ok(query) => found(alloc, run_query(rt, alloc, snapshot, &query, NOW, steps)),
        Err(_) => format!(in alloc; "unspelled\n"),
    }
}

/// Returns the lines of the records, or the fault as a line.
fn found(alloc: Global, run: Result<Recs, RunFault>) -> Result<String, AllocError> {
    match run {
        Ok(records) => {
            let mut text = Text::new();
            lines(alloc, &records, &mut text)?;
            format!(in alloc; "{}", text.as_str())
        }
        Err(RunFault::RegexRefused { nth }) => format!(in alloc; "regex {nth}\n"),
        Err(RunFault::ManyRows) => format!(in alloc; "many\n"),
        Err(RunFault::Overflow { name }) => format!(in alloc; "overflow {}\n", name.as_str()),
        Err(RunFault::Memory) => format!(in alloc; "memory\n"),
    }
}

/// Returns the lines in one, each with a semicolon after it.
fn joined(alloc: Global, text: &str) -> Result<String, AllocError> {
    let mut said = String::new(alloc);
    for line in text.lines() {
        write!(said, "{line} ; ")?;
    }
    Ok(said)
}
