//! Tests of `lq_prune`.
//!
//! A line is a moment in nanoseconds, a query and blocks, with tabs between them. A block is its rows, cut at
//! semicolons: of each its time, its batch and its place, the names of its labels, and its fields. The program writes
//! of each block whether the query may have rows in it, and how many of its rows hold at that moment. The answers are
//! those of a plain program in Python.
#![tactic(auto)]

mod block_tests;
mod need_tests;

use need_tests::answer;
use std::io;

fn main(rt: HostRuntime) -> io::Result<()> {
    for line in rt.stdin().lines(rt.alloc()) {
        let answer = answer(rt.alloc(), line?.as_str())?;
        println!(rt; "{answer}")?;
    }
    Ok(())
}
