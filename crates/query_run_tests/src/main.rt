//! Tests of `query_run`.
//!
//! A line is a query and batches, with tabs between them. A batch is its rows, cut at semicolons: of each its time, the
//! names of its labels, and its fields. The program inserts the batches, looks at them, and writes the records that
//! `run_query` finds, or why there are none, and by how many steps the counter rose: so many blocks it opened. Then it
//! writes whether `read_query` and `answer` give the same, and whether they opened as many blocks. One counter counts
//! the steps of `run_query` for all lines, and each `answer` has its own. The answers are those of a plain program in
//! Python.
#![tactic(auto)]

mod batch_tests;
mod run_tests;
mod search_tests;

use query_run::Steps;
use run_tests::{Tests, answer};
use std::io;

fn main(rt: HostRuntime) -> io::Result<()> {
    let mut steps = Steps::<Tests>::new();
    for line in rt.stdin().lines(rt.alloc()) {
        let answer = answer(&rt, line?.as_str(), &mut steps)?;
        println!(rt; "{answer}")?;
    }
    Ok(())
}
