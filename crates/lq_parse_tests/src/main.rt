//! Reads a query on each line, and writes what it says, or why it is none. A control character stands in a line as its
//! picture, from U+2400 on.
//!
//! After `#tokens ` it reads a query of which it writes the tokens, or the first fault. A token is its kind, its place,
//! a `+` if it is glued, and the text that it stands for. The kind is `B` for a bare word, `Q` for a quoted text, and
//! else the mark.
//!
//! The answers in `stdout` are not the program's own. They are made in Python, by a reader that follows all
//! derivations of the grammar at once, token by token, and finds the faults along them afterwards.
#![tactic(auto)]

mod answers_tests;
mod pipes_tests;
mod row_pipes_tests;
mod shown_tests;
mod tokens_tests;

use answers_tests::answer;
use shown_tests::with_controls;
use std::io;

fn main(rt: HostRuntime) -> io::Result<()> {
    for line in rt.lines(rt.alloc()) {
        let line = with_controls(rt.alloc(), line?.as_str())?;
        let answer = answer(rt.alloc(), line.as_str())?;
        println!(rt; "{answer}")?;
    }
    Ok(())
}
