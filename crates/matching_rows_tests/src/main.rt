//! Tests of `matching_rows`.
//!
//! A line is a query and blocks, with tabs between them. A block is its rows, cut at semicolons: of each its time, its
//! batch and its place, the names of its labels, and its fields. The program writes of each row that matches its time
//! and the value of `n`, in the order of the history, or why there is no answer. The answers are those of a plain
//! program in Python.
#![tactic(auto)]

mod block_tests;
mod match_tests;

use match_tests::answer;
use std::io;

fn main(rt: HostRuntime) -> io::Result<()> {
    for line in rt.stdin().lines(rt.alloc()) {
        let answer = answer(rt.alloc(), line?.as_str())?;
        println!(rt; "{answer}")?;
    }
    Ok(())
}
