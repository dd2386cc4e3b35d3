//! Reads JSON lines, and prints the fields of each as `name=value;` in their order, or its error. Both implementations
//! run, and the output shows where they differ. Of a line `run BYTES` it prints how many of these bytes stand for
//! themselves in a string, and of `check NAME` whether that check of the program holds.
//!
//! The expected output in `stdout` comes from Python: fields from its `json` module, with numbers and arrays as they
//! are written, and offsets of errors from a parser of RFC 8259 written in Python.
#![tactic(auto)]

mod answers_tests;
mod fields_tests;

use answers_tests::answer;
use std::io;
use std::io::Read;

fn main(rt: HostRuntime) -> io::Result<()> {
    let mut input = Vec::new(rt.alloc());
    rt.reader().read_to_end(&mut input)?;
    for line in input.split(|byte| *byte == b'\n') {
        let answer = answer(rt.alloc(), line)?;
        println!(rt; "{answer}")?;
    }
    Ok(())
}
