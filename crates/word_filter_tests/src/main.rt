//! Tests of `word_filter`.
//!
//! A line is the values of a column, with commas between them. The program writes the filter of their words as bytes
//! in hexadecimal digits, and how many words of 64 bits are read from these bytes and how many bytes are left after
//! them. A line `again N VALUES` has the values N times. A line `read DIGITS` reads these bytes. The answers are those
//! of a plain reader and writer in Python. The words of the two longest lines have one slot among those that were met
//! lately, so that each of them is met as a new one again and again.
#![tactic(auto)]

mod filter_tests;
mod hex_tests;

use filter_tests::answer;
use std::io;

fn main(rt: HostRuntime) -> io::Result<()> {
    for line in rt.stdin().lines(rt.alloc()) {
        let answer = answer(rt.alloc(), line?.as_str())?;
        println!(rt; "{answer}")?;
    }
    Ok(())
}
