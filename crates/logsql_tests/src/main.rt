//! Runs the cases of `tests/logsql/`: reads them on standard input, and writes them again, each with what the program
//! printed in place of the lines that are wanted. So the output is the input where all is right.
//!
//! Behind them it writes what comes of commands, faults, limits, served doors and the rows of trials, which no case can
//! say: a line for each run, as `tests/logsql/checks.txt` has it.
//!
//! `tests/logsql/README.md` describes both, and `tools/logsql-tables` joins the files into `stdin` and `stdout`.
//! The wanted lines are worked by hand from the rules in `docs/`, and those of trials by a separate Python program.
#![tactic(auto)]

mod commands_tests;
mod doors_tests;
mod faults_tests;
mod limits_tests;
mod program_tests;
mod reader_tests;
mod trial_tests;
mod visitors_tests;

use reader_tests::Reader;
use std::io;

fn main(rt: HostRuntime) -> io::Result<()> {
    let mut reader = Reader::new(rt.alloc());
    for line in rt.lines(rt.alloc()) {
        let shown = reader.read(&rt, line?.as_str())?;
        print!(rt; "{shown}")?;
    }
    let mut text = String::new(rt.alloc());
    commands_tests::write_all(&rt, &mut text)?;
    faults_tests::write_all(&rt, &mut text)?;
    limits_tests::write_all(&rt, &mut text)?;
    doors_tests::write_all(&rt, &mut text)?;
    trial_tests::write_all(rt.alloc(), &mut text)?;
    print!(rt; "{text}")
}
