//! Reads a case on each line: its title, the status, the delivery and the content, separated by bars. Prints the
//! response. Each one is also written in two parts, and again with a failure of the second part. If this does not write
//! the same bytes, or exactly the head, both are printed.
//!
//! A carriage return is written as `\r`, and a line feed as `\n`.
//!
//! The expected output in `stdout` comes from a second implementation in Python.
#![tactic(auto)]

mod answers_tests;
mod cases_tests;

use answers_tests::answer;
use std::io;

fn main(rt: HostRuntime) -> io::Result<()> {
    for line in rt.lines(rt.alloc()) {
        let answer = answer(rt.alloc(), line?.as_str())?;
        println!(rt; "{answer}")?;
    }
    Ok(())
}
