//! Tests of `block_scan`.
//!
//! A line is a query and the rows of a block, with a tab between them. Rows are cut at semicolons: of each its time,
//! its batch and its place, the names of its labels, and its fields. The program writes the mask of the block, a digit
//! a row. It makes the mask once by itself and twice by one scanner, and asks each row by the plain slow scan too.
//! Where one of them differs it writes all. The masks are those of a plain program in Python.
#![tactic(auto)]

mod block_tests;
mod mask_tests;

use mask_tests::answer;
use std::io;

fn main(rt: HostRuntime) -> io::Result<()> {
    for line in rt.stdin().lines(rt.alloc()) {
        let answer = answer(rt.alloc(), line?.as_str())?;
        println!(rt; "{answer}")?;
    }
    Ok(())
}
