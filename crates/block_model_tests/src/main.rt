//! Tests of `block_model`.
//!
//! A line is rows, with a semicolon between them: the time, the batch and the place, and then the fields. The program
//! writes the keys, and each name with the values of the rows. A line `row` is one row, after whose fields the names of
//! its labels stand; the program makes it again of its stream, its key and its fields, and writes it. A line `recent`
//! gives texts; of each the program writes whether its slot had another, and remembers it. The answers are those of a
//! plain program in Python.
#![tactic(auto)]

mod row_tests;

use row_tests::answer;
use std::io;

fn main(rt: HostRuntime) -> io::Result<()> {
    for line in rt.stdin().lines(rt.alloc()) {
        let answer = answer(rt.alloc(), line?.as_str())?;
        println!(rt; "{answer}")?;
    }
    Ok(())
}
