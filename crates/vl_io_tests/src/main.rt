//! Tests of sources, sinks, clocks and doors (`vl_io`), and of vaults in memory (`vl_vault`).
//!
//! A line is a word and at times a number after it, or several. A line
//!
//! - `write CALLS` writes `stored` to a writer that takes three bytes a call and fails after these calls: what it took;
//! - `doors FAILING` asks doors of two visitors five times, of which the calls of these numbers fail;
//! - `image CHOICE` takes the image of a vault with a failed write: the bytes of its file, and its faults;
//! - `left NUMBER` fails the write of this number: the bytes that are read then;
//! - `cut NUMBER` fails the cut of this number: the length then.
//!
//! Of another line the program writes whether its check holds: `torn`, `growth`, `removal` and `newest` have the
//! outcomes that the disk model names after this many pairs of calls, and the other words name a check that stands in
//! the code. The answers were made by hand, from the pages of the two crates.
#![tactic(auto)]

mod answers_tests;
mod doors_tests;
mod outcome_tests;
mod sources_tests;
mod support_tests;
mod vault_tests;

use answers_tests::answer;
use std::io;

fn main(rt: HostRuntime) -> io::Result<()> {
    for line in rt.lines(rt.alloc()) {
        let line = line?;
        let answer = match line.as_str() {
            "side_by_side" => doors_tests::side_by_side(&rt)?.to_string(rt.alloc())?,
            other => answer(&rt, other)?,
        };
        println!(rt; "{line}: {answer}")?;
    }
    Ok(())
}
