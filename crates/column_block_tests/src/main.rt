//! Tests of `column_block`.
//!
//! A line is the rows of a block, cut at semicolons: of each its time, its batch and its place, the names of its
//! labels, and its fields. The program makes a block of them, and writes what the head says, what the opened block
//! lends, and the bytes of the block. A plain block, which keeps the rows as they are, says the same. Hexadecimal
//! digits are the bytes of a block, and the program writes the same of it, or where the bytes are damaged. `made` is
//! a block of so many rows with values of so many bytes, and `wide` one of so many rows and columns. `head` writes the
//! copy of the head of a block of rows, and its weight. `batch` and a number writes what a block says under this number
//! of its batch, its bytes, and what it said before. `lent` writes the stream, the times and the columns that the
//! opened block lends, of plain columns the lengths of the texts. The answers are those of a plain program in Python.
#![tactic(auto)]

mod block_tests;
mod hex_tests;
mod lent_tests;
mod plain_tests;

use block_tests::answer;
use std::io;

fn main(rt: HostRuntime) -> io::Result<()> {
    for line in rt.stdin().lines(rt.alloc()) {
        let answer = answer(rt.alloc(), line?.as_str())?;
        println!(rt; "{answer}")?;
    }
    Ok(())
}
