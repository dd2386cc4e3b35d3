//! Tests of `col_codec`.
//!
//! A line `ints` gives integers, and a line `texts` texts, with a comma between each two. The program writes the
//! bytes of the column in hexadecimal digits, and the values that the column and the column of those bytes have. A
//! line `read-ints` or `read-texts` gives a number of rows and bytes; the program writes the values, or what is
//! wrong. A line `take-ints` or `take-texts` gives the same; the program takes a column from the front of the
//! bytes, puts it behind those that are left, and writes these bytes and the values. The answers are those of a
//! plain reader in Python. `wide` columns are made by the program, as each line says. A line `masks` gives two
//! integers; the program makes columns of integers between them, and compares their masks with a plain comparison.
#![tactic(auto)]

mod column_tests;
mod hex_tests;
mod mask_tests;

use column_tests::answer;
use std::io;

fn main(rt: HostRuntime) -> io::Result<()> {
    for line in rt.stdin().lines(rt.alloc()) {
        let answer = answer(rt.alloc(), line?.as_str())?;
        println!(rt; "{answer}")?;
    }
    Ok(())
}
