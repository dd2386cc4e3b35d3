//! Tests of `row_pipes`.
//!
//! The program answers a table. A case is a line: a pipe as a word and two parts, and a record, with tabs between all.
//! A record is its fields as `name=value`, with `&` between them. The pipes are:
//!
//! - `extract`, a pattern, and the name of the field whose value it is held against
//! - `format`, a pattern, and the name that is set
//! - `len`, the name of the field that is measured, and the name that is set
//! - `math`, and items as `name=expression`, with commas between them; the other part is empty. An expression has its
//!   operators behind what they work on, with spaces between all: `a b 2 * +`. A word is a number, an operator, or a
//!   field, which `$` may stand before.
//! - `sum`, a number, and a name: `math` with one item for this name, in which the field `a` is added so many times
//!
//! The answer is the record with its new fields, or the fault. The answers are those of a Python program of its own.
#![tactic(auto)]

mod make_tests;
mod notation_tests;

use make_tests::answer;
use std::io;

fn main(rt: HostRuntime) -> io::Result<()> {
    for case in rt.lines(rt.alloc()) {
        let answer = answer(rt.alloc(), case?.as_str())?;
        println!(rt; "{answer}")?;
    }
    Ok(())
}
