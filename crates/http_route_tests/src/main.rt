//! Reads a case on each line: what it shows, and after ` | ` the bytes of a request. Writes what it asks for, or the
//! reply to its refusal, as it is where the connection goes on, or the reply to its fault.
//!
//! A byte that is not visible ASCII is written as `\0a;`, and n of the same as `\61x65536;`.
//!
//! The answers in `stdout` are not the program's own: they come from a second reading of the same rules in Python.
#![tactic(auto)]

mod answers_tests;
mod shown_tests;
mod spelling_tests;

use answers_tests::answer;
use std::io;

fn main(rt: HostRuntime) -> io::Result<()> {
    for line in rt.lines(rt.alloc()) {
        let answer = answer(rt.alloc(), line?.as_str())?;
        println!(rt; "{answer}")?;
    }
    Ok(())
}
