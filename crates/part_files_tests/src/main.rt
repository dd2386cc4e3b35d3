//! Tests of `part_files`.
//!
//! A line is a day, a number of bytes, and hexadecimal digits. The program writes the bytes of the digits into a file,
//! and reads the part of an entry of this day and so many bytes. It writes how many rows the part has and what they
//! weigh, or why there is none. The answers are those of a plain program in Python.
//!
//! A line `check NAME` asks whether that check of the program holds: of a file that is written over, of one that is
//! removed, of what a crash leaves, or of the call of a number that fails, as `check fault 3`.
#![tactic(auto)]

mod crash_tests;
mod reading_tests;

use reading_tests::answer;
use std::io;

fn main(rt: HostRuntime) -> io::Result<()> {
    for line in rt.stdin().lines(rt.alloc()) {
        let answer = answer(rt.alloc(), line?.as_str())?;
        println!(rt; "{answer}")?;
    }
    Ok(())
}
