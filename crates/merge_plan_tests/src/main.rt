//! Tests of `merge_plan`.
//!
//! A line is the rows of one batch, cut at semicolons: of each its time, its batch and its place, the names of its
//! labels, and its fields. There is no stored part. The program writes the old files of the plan, and of each new part
//! its day, how many rows it has, and how much it weighs. The answers were worked out by hand.
#![tactic(auto)]

mod plan_tests;
mod rows_tests;

use plan_tests::answer;
use std::io;

fn main(rt: HostRuntime) -> io::Result<()> {
    for line in rt.stdin().lines(rt.alloc()) {
        let answer = answer(rt.alloc(), line?.as_str())?;
        println!(rt; "{answer}")?;
    }
    Ok(())
}
