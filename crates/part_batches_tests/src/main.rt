//! Tests of `part_batches`.
//!
//! A line is a front, and parts after bars. A part is the batch and the place of each of its rows, cut at commas. The
//! program writes whether the parts hold the rows of exactly so many batches, or `no part`. The answers are those of a
//! plain program in Python.
//!
//! `made` is a front, a number of rows of each batch, and a number of parts, over which the rows of all batches go in
//! turn.
#![tactic(auto)]

mod parts_tests;

use parts_tests::answer;
use std::io;

fn main(rt: HostRuntime) -> io::Result<()> {
    for line in rt.stdin().lines(rt.alloc()) {
        let answer = answer(rt.alloc(), line?.as_str())?;
        println!(rt; "{answer}")?;
    }
    Ok(())
}
