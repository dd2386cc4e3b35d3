//! Reads a case on each line and writes its result. After `message ` stands a message: it writes its moment and
//! its fields, or why there is none. After `frames ` stand the pieces of a stream, and a point where the input ends:
//! it writes for each of them the messages that come, and the fault if there is one.
//!
//! A byte that is not visible ASCII is written as `\0a;`, and n of the same as `\61x65536;`.
//!
//! The answers in `stdout` are not the program's own: they come from a second reading of the same rules in Python.
#![tactic(auto)]

mod answers_tests;
mod spelling_tests;

use answers_tests::answer;
use std::io;

fn main(rt: HostRuntime) -> io::Result<()> {
    for line in rt.lines(rt.alloc()) {
        let answer = answer(rt.alloc(), line?.as_str())?;
        println!(rt; "{answer}")?;
    }
    Ok(())
}
