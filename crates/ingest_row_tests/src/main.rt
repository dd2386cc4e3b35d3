//! Reads cases, one a line: the arguments of a request as `name=value&name=value`, and after a tab a line of JSON that
//! came in 5 ns after 1970 began. Writes the row of that line; with no tab, what the arguments ask for; or the fault.
//! A case that begins with `<` is a message of syslog that came in then, whose row it writes, or the fault. A case
//!
//! - `long COUNT|FIRST|PIECE|LAST` is a line in which the piece comes this often, and the line with the piece once
//!   less: the faults of both, or `row`;
//! - `members COUNT` is a line of this many members: its fault, or `row`;
//! - `lines COUNT` is a body of this many lines of 200 kB: how many rows are kept, and what they weigh where that is
//!   too much for a batch;
//! - `added COUNT|LABELS|BLANKS|LINE` is a body in which this line comes this often, each time with this many blanks at
//!   its end, and 200 kB are added to each line as the field `f`: the same, or `memory`. The labels are those named;
//! - `check NAME` asks whether that check of the program holds.
//!
//! The answers in `stdout` are not the program's own. They are made in Python, with its `json` module for the lines,
//! its `datetime` for the moments, and a second reading of the rules of syslog.
#![tactic(auto)]

mod answers_tests;
mod limits_tests;

use answers_tests::answer;
use std::io;

fn main(rt: HostRuntime) -> io::Result<()> {
    for case in rt.lines(rt.alloc()) {
        let answer = answer(rt.alloc(), case?.as_str())?;
        println!(rt; "{answer}")?;
    }
    Ok(())
}
