//! Tests of `lq_pipes`.
//!
//! The program answers a table of three parts, with the line `===` between them.
//!
//! A case of the first part is a row: its time, the names of its stream's labels, with commas between them, and its
//! fields, with tabs between all; the line `---` stands between cases. The answer is the lines of all rows: those of
//! one printer, those of the plain program, and those of the rows' records. They are from Python's `json`, `hashlib`
//! and `datetime`. The printer is given the rows as they may lie in columns too, for the same lines.
//!
//! A case of the second part is a line: pipes with `|` between them, and after them records, with tabs between all. A
//! pipe is its name and its parts in words. A record is its fields as `name=value`, with `&` between them. The answer
//! repeats the pipes, and has the lines of the records that they make, or the fault.
//!
//! A case of the third part is a line of pipes. The answer repeats them, and has the lines of what they make of the
//! rows. It is computed of the rows, of the rows as they may lie in columns, and of their records.
//!
//! The answers to pipes are those of a Python program of its own.
#![tactic(auto)]

mod lent_tests;
mod notation_tests;
mod pipe_tests;
mod plain_tests;
mod printed_tests;
mod row_tests;

use pipe_tests::answer;
use printed_tests::{of_records, plainly_printed, printed, printed_lent, rows_of};
use row_tests::answer_of_rows;
use std::io::{self, Write};

fn main(rt: HostRuntime) -> io::Result<()> {
    let input = io::read_to_string(rt.alloc(), rt.stdin())?;
    let (rows, cases) = input.split_once("\n===\n").unwrap_or(("", ""));
    let (cases, pipes) = cases.split_once("\n===\n").unwrap_or((cases, ""));
    let rows = rows_of(rt.alloc(), rows)?;
    let mut out = rt.stdout();
    let text = printed(rt.alloc(), &rows)?;
    out.write_all(text.as_str().as_bytes())?;
    if text.as_str() != printed_lent(rt.alloc(), &rows)?.as_str() {
        out.write_all(b"not so where they are lent\n")?;
    }
    out.write_all(&plainly_printed(rt.alloc(), &rows)?)?;
    out.write_all(of_records(rt.alloc(), &rows)?.as_str().as_bytes())?;
    for case in cases.lines() {
        let pipes = case.split('\t').next().unwrap_or("");
        let answer = answer(rt.alloc(), case)?;
        print!(rt; "== {pipes}\n{}", answer.as_str())?;
    }
    for pipes in pipes.lines() {
        let answer = answer_of_rows(rt.alloc(), pipes, &rows)?;
        print!(rt; "== {pipes}\n{}", answer.as_str())?;
    }
    Ok(())
}
