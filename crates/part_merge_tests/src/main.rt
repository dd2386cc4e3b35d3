//! Tests of `part_merge` and `day_parts`, and of blocks of picked rows (`column_block`, `part_picks`).
//!
//! A line is a word and rows, cut at semicolons: of each its time, its batch and its place, the names of its labels,
//! and its fields. Rows are written in the same form.
//!
//! - `merge` has parts, cut at slashes. The program merges them and writes the rows of the part.
//! - `days` has the rows of a part. The program splits it and writes each day and the rows of its part.
//! - `picks` has two blocks, cut at a slash. The program writes the rows of a block of the first row of the first
//!   block, then of all rows of the second one, and last of the other rows of the first one.
//!
//! The answers were worked out by hand.
#![tactic(auto)]

mod days_tests;
mod merge_tests;
mod picks_tests;
mod rows_tests;

use days_tests::days_text;
use merge_tests::merged_text;
use picks_tests::picked_text;
use std::alloc::{AllocError, Global};
use std::io;

fn main(rt: HostRuntime) -> io::Result<()> {
    for line in rt.stdin().lines(rt.alloc()) {
        let answer = answer(rt.alloc(), line?.as_str())?;
        println!(rt; "{answer}")?;
    }
    Ok(())
}

/// Returns what the program writes for a line.
fn answer(alloc: Global, line: &str) -> Result<String, AllocError> {
    let (word, rest) = line.split_once(' ').unwrap_or((line, ""));
    match word {
        "merge" => merged_text(alloc, rest),
        "days" => days_text(alloc, rest),
        "picks" => picked_text(alloc, rest),
        _ => format!(in alloc; "no word"),
    }
}
