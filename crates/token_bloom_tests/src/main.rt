//! Tests of `token_bloom`.
//!
//! A line gives the room of a filter, the words that are added, and behind a bar the words that are asked for. The
//! program writes the filter's bytes in hexadecimal digits, and for each word that is asked for whether it may be
//! there, by the filter and by the filter that is read from those bytes. A line `length N` asks for the filter that N
//! zero bytes are, and a line `hash WORD` for the hash of a word. The answers are those of FNV-1a and of the six
//! places, by Python's whole numbers; the hashes of the empty text, `a`, `b` and `foobar` are published with FNV-1a.
#![tactic(auto)]

mod filter_tests;

use filter_tests::answer;
use std::io;

fn main(rt: HostRuntime) -> io::Result<()> {
    for line in rt.stdin().lines(rt.alloc()) {
        let answer = answer(rt.alloc(), line?.as_str())?;
        println!(rt; "{answer}")?;
    }
    Ok(())
}
