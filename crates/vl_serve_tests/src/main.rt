//! Tests of `vl_serve`.
//!
//! A line is the name of a check: when a round is due, or how serving ends. The program writes what came of it.
#![tactic(auto)]

mod checks_tests;
mod doors_tests;
mod pace_tests;
mod serving_tests;
mod visitors_tests;

use std::io;

fn main(rt: HostRuntime) -> io::Result<()> {
    for line in rt.lines(rt.alloc()) {
        let answer = checks_tests::answer(&rt, line?.as_str())?;
        println!(rt; "{answer}")?;
    }
    Ok(())
}
