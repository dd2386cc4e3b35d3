//! Tests of `block_format`.
//!
//! Each line is bytes in hexadecimal digits. The program writes the labels, the keys and the columns that they say, or
//! how many bytes are left from the damaged item on. A line `labels` gives
//! labels, and a line `column` a name and values; the program writes the bytes of these labels or of this column. The
//! answers are those of a plain reader in Python.
#![tactic(auto)]

mod hex_tests;
mod part_tests;

use part_tests::answer;
use std::io;

fn main(rt: HostRuntime) -> io::Result<()> {
    for line in rt.stdin().lines(rt.alloc()) {
        let answer = answer(rt.alloc(), line?.as_str())?;
        println!(rt; "{answer}")?;
    }
    Ok(())
}
