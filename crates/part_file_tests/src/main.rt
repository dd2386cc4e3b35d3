//! Tests of `part_file`.
//!
//! A line is the rows of a part, cut at semicolons: of each its time, its batch and its place, the names of its labels,
//! and its fields. The program makes a part of them, and writes its blocks, their rows, and the bytes of the part.
//! `batch` and rows makes a part of a batch of these rows, gives it the batch number 7, and writes the same.
//! Hexadecimal digits after `=` are the bytes of a part, and the program writes the same of it, or why they are none.
//! `made` is a part of so many rows of so many streams with so many names in all, of which it writes the sizes of the
//! blocks, the length of the bytes, and whether they are read again. The answers are those of a plain program in
//! Python.
#![tactic(auto)]

mod hex_tests;
mod part_tests;
mod rows_tests;

use part_tests::answer;
use std::io;

fn main(rt: HostRuntime) -> io::Result<()> {
    for line in rt.stdin().lines(rt.alloc()) {
        let answer = answer(rt.alloc(), line?.as_str())?;
        println!(rt; "{answer}")?;
    }
    Ok(())
}
