//! Reads the words of a command line on each line, with one space between them, and writes what they ask for. `''`
//! stands for the empty word, and an empty line for no words.
//!
//! The answers in `stdout` are not the program's own. They are made in Python, by a reader that takes the words apart
//! by the rules of each command.
#![tactic(auto)]

mod answers_tests;

use answers_tests::answer;
use std::io;

fn main(rt: HostRuntime) -> io::Result<()> {
    for line in rt.lines(rt.alloc()) {
        let line = line?;
        let answer = answer(rt.alloc(), line.as_str())?;
        println!(rt; "{line} -> {answer}")?;
    }
    Ok(())
}
