//! Parses a timestamp on each line, and prints it in nanoseconds and in RFC 3339 format with its day number, or its
//! error. Both implementations run, and the output shows where they differ. After `bound ` a line has a time bound, of
//! which the first and last nanosecond are printed, and after `duration ` a duration, printed in nanoseconds.
//!
//! The expected output in `stdout` comes from Python: timestamps, their texts and days, and the ends of bounds from its
//! `datetime` and `calendar`, Unix timestamps by their size, and durations as sums of its integers.
#![tactic(auto)]

mod answers_tests;

use answers_tests::answer;
use std::io;

fn main(rt: HostRuntime) -> io::Result<()> {
    for line in rt.lines(rt.alloc()) {
        let answer = answer(rt.alloc(), line?.as_str())?;
        println!(rt; "{answer}")?;
    }
    Ok(())
}
