//! Tests of `block_column`.
//!
//! A line `values` gives values, with a comma between each two. The program writes the kind and the body of their
//! column in hexadecimal digits, and its values, a `#` before each that is lent as an integer.
//!
//! A line `parts` gives values; the program writes the kind and the body of their column, and its members or that it
//! has none. A line `found` gives a number of rows, the most bytes of a value, and the bytes of a column of any kind;
//! the program writes each value that they say and how many bytes it has, and then the kind and the body of the column
//! of these values. The answers are those of a plain reader in Python.
#![tactic(auto)]

mod column_tests;
mod hex_tests;
mod part_tests;

use column_tests::answer;
use std::io;

fn main(rt: HostRuntime) -> io::Result<()> {
    for line in rt.stdin().lines(rt.alloc()) {
        let answer = answer(rt.alloc(), line?.as_str())?;
        println!(rt; "{answer}")?;
    }
    Ok(())
}
