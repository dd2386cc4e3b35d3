//! Tests of `lq_stats`.
//!
//! The program answers a table. A case is a line: the words of a pipe `stats`, with spaces between them, and after them
//! records, with tabs between all. A word is a key, as `by=name` or `by=name:step`, or a function, as `call:names>name`.
//! A function is asked of the records for which what stands after its `?` holds, as `?field=text`. A record is its
//! fields as `name=value`, with `&` between them.
//!
//! The answer is the records that the statistics of all records are, or the name of the function whose total is too
//! large. For each place among the records, the statistics of those before it take those of the others: by partial
//! statistics, by a plan, and by a plan whose pieces come in the other order. If these are not the same, the answer is
//! `differ at` and the place. The answers are those of a Python program of its own.
#![tactic(auto)]

mod merge_tests;
mod notation_tests;

use merge_tests::answer;
use std::io;

fn main(rt: HostRuntime) -> io::Result<()> {
    for case in rt.lines(rt.alloc()) {
        let answer = answer(rt.alloc(), case?.as_str())?;
        println!(rt; "{answer}")?;
    }
    Ok(())
}
