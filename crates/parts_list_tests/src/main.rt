//! Tests of `parts_list`.
//!
//! A line is the bytes of the two slots in hexadecimal digits. The program reads the live list, and writes its
//! generation, front and next file, and of each entry the day, the file and the bytes. It writes `no list` if no gate
//! is open, and else why there is none. The answers are those of a plain program in Python.
//!
//! A line `check NAME` asks whether that check of the program holds: of a crash while lists are written, of the bytes
//! of a list, or of the call of a number that fails, as `check fault 3`.
#![tactic(auto)]

mod crash_tests;
mod reading_tests;

use reading_tests::answer;
use std::io;

fn main(rt: HostRuntime) -> io::Result<()> {
    for line in rt.stdin().lines(rt.alloc()) {
        let answer = answer(rt.alloc(), line?.as_str())?;
        println!(rt; "{answer}")?;
    }
    Ok(())
}
