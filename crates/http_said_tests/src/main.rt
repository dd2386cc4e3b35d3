//! Reads a case on each line: its title, and after ` | ` header fields with the empty line after them, or form data.
//! Prints what the fields mean, or the arguments.
//!
//! A byte other than visible ASCII is written as `\0a;`, and a byte repeated 65,536 times as `\61x65536;`.
//!
//! The expected output in `stdout` comes from a second implementation in Python.
#![tactic(auto)]

mod answers_tests;
mod spelling_tests;

use answers_tests::answer;
use std::io;

fn main(rt: HostRuntime) -> io::Result<()> {
    for line in rt.lines(rt.alloc()) {
        let answer = answer(rt.alloc(), line?.as_str())?;
        println!(rt; "{answer}")?;
    }
    Ok(())
}
