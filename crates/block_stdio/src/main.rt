//! Makes blocks of the rows of JSON lines from standard input, writes each as bytes, and reads these again. It is for
//! measuring, and for comparing blocks with those of another program.
//!
//! Its words are `[SIZE [ROUNDS [STREAM_FIELD]]]`. It cuts the rows into groups of SIZE (1,000 without it), makes a
//! block of the rows of each stream in a group, and holds the blocks until all are made. It does this ROUNDS times
//! (once without it). It says how many rows, bytes and blocks there are, and with a second word also how many
//! nanoseconds a row the making and the reading took, the least of all rounds. The streams have one label at most,
//! STREAM_FIELD.
//!
//! With the word `read` it reads blocks, each after its length in four bytes. Of each it writes how many rows it has,
//! and each row in a line of its own, or `Damaged at` and the place.
#![tactic(auto)]

mod measure;
mod rows_text;

use crate::measure::{best_of, numbered, read_rows};
use crate::rows_text::blocks_text;
use std::env;
use std::io::{self, Read};

/// The number that the word at this place is, or else another.
fn number_at(words: &[String], i: usize, other: u64) -> u64 {
    match words.get(i) {
        Some(word) => word.as_str().parse::<u64>().unwrap_or(other),
        None => other,
    }
}

/// The word at this place, or an empty one.
fn word_at(words: &[String], i: usize) -> &str {
    match words.get(i) {
        Some(word) => word.as_str(),
        None => "",
    }
}

fn main(rt: HostRuntime) -> io::Result<()> {
    let words: Vec<String> = env::args(&rt)?.skip(1).collect(rt.alloc())?;
    let mut body = Vec::new(rt.alloc());
    rt.stdin().read_to_end(&mut body)?;
    if word_at(&words, 0) == "read" {
        let text = blocks_text(rt.alloc(), &body)?;
        print!(rt; "{text}")?;
        return Ok(());
    }
    let size = number_at(&words, 0, 1_000).min(4_096).max(1) as usize;
    let rows = read_rows(rt.alloc(), word_at(&words, 2), &body)?;
    let lent = numbered(rt.alloc(), &rows)?;
    let tally = best_of(&rt, rt.alloc(), &lent, size, number_at(&words, 1, 1))?;
    println!(rt;
        "{} rows, {} bytes, {} blocks",
        tally.rows, tally.bytes, tally.blocks
    )?;
    if words.len() > 1 {
        let rows = tally.rows.max(1);
        println!(rt;
            "made in {}, read in {} nanoseconds a row",
            tally.made / rows,
            tally.read / rows
        )?;
    }
    Ok(())
}
