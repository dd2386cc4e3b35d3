//! Tests of `byte_format`.
//!
//! Each line names a call and gives bytes in hexadecimal digits. The program writes what the call reads and how many
//! bytes stand behind it, or how many bytes are left from the damaged item on. What was read is written again. The
//! answers are those of Python's `int.from_bytes` and `bytes.decode`. A padded number is a byte and a byte of 0: the
//! answers to `padded` and `window` follow from that rule.
#![tactic(auto)]

mod items_tests;
mod padded_tests;

use items_tests::answer;
use std::io;

fn main(rt: HostRuntime) -> io::Result<()> {
    for line in rt.stdin().lines(rt.alloc()) {
        let answer = answer(rt.alloc(), line?.as_str())?;
        println!(rt; "{answer}")?;
    }
    Ok(())
}
