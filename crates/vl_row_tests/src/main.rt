//! Tests of `vl_row`.
//!
//! The program answers a table. For two texts on a line, with a tab between them, it writes how the first stands to the
//! second in value order, and which numbers they are; also where their keys stand otherwise. A line
//!
//! - `row TIME COUNT NAME VALUE` asks for a row of this many fields, with names and values of these lengths: its time
//!   and how many fields it has, or the fault and how many fields come back;
//! - `batch COUNT` for a batch of rows of 262,144 bytes: how many rows it has, or the fault and how many come back;
//! - `text LENGTH MORE` whether a text of this many bytes is copied, and grows by this many more;
//! - `stream LABEL LABEL` whether rows with these labels have the same stream;
//! - `falling COUNT` for the fields of members that come in falling order;
//! - `check NAME` whether that check of the program holds.
//!
//! The answers are those of a Python program of its own.
#![tactic(auto)]

mod answers_tests;
mod recs_tests;
mod row_tests;
mod setter_tests;

use answers_tests::answer;
use std::io;

fn main(rt: HostRuntime) -> io::Result<()> {
    for line in rt.stdin().lines(rt.alloc()) {
        let answer = answer(rt.alloc(), line?.as_str())?;
        println!(rt; "{answer}")?;
    }
    Ok(())
}
