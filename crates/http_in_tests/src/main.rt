//! Reads a case on each line: what it shows, and after ` | ` the bytes of a connection. Writes the requests that come,
//! each in brackets, and how they end. Each connection is read whole. A short one is also read a byte at a time; where
//! that makes a difference, both are written. After ` | ` stands how many of these reads were made once each request
//! was there: the request's last byte is the last that is read.
//!
//! Of a shorter one each read fails in turn, which must be answered once and change nothing. It is also read in two
//! pieces, cut at each place. After a second ` | ` stands what comes where the input ends after this many bytes.
//!
//! A byte that is not visible ASCII is written as `\0a;`, and n of the same as `\61x65536;`.
//!
//! The answers in `stdout` are not the program's own: they come from a second reading of the same rules in Python.
#![tactic(auto)]

mod answers_tests;
mod counted_tests;
mod ends_tests;
mod readings_tests;
mod spelling_tests;

use answers_tests::answer;
use std::io;

fn main(rt: HostRuntime) -> io::Result<()> {
    for line in rt.lines(rt.alloc()) {
        let answer = answer(rt.alloc(), line?.as_str())?;
        println!(rt; "{answer}")?;
    }
    Ok(())
}
