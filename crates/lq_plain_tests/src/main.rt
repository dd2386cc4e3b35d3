//! Compares the slow versions of filters and pipes with the shipped ones.
//!
//! The program answers a table. A case is a line: a query, and after it records, with tabs between all. A record is its
//! fields as `name=value`, with `&` between them.
//!
//! If the first pipe of the query is `sort`, `uniq`, `top` or `stats`, the answer is the records that it makes of the
//! records, or the fault. They are made of all records at once, and of two halves of them. Otherwise the answer is the
//! number after those of the filter's patterns, of which the first has the number 3, and whether the filter holds for
//! each record: first for a row of it, whose stream has the label `a`, and then for the record itself. A row is a
//! minute older than the one before, unless its record says the time as `_time`. Where a pattern of the query is
//! refused, the answer is the faults of the query, of its filter alone, and of the slow version. Where the versions
//! differ, an answer has `x`, or is `differ`.
//!
//! The answers are those of a Python program of its own, which calls `unicodedata`, `str.casefold` and `hashlib`.
#![tactic(auto)]

mod answers_tests;
mod filters_tests;
mod pipes_tests;
mod records_tests;

use answers_tests::answer;
use lq_tuple::HashSeed;
use std::io;

fn main(rt: HostRuntime) -> io::Result<()> {
    let seed = HashSeed::random(&rt);
    for case in rt.lines(rt.alloc()) {
        let answer = answer(rt.alloc(), seed, case?.as_str())?;
        println!(rt; "{answer}")?;
    }
    Ok(())
}
