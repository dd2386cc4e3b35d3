//! Connections whose input ends after each of their bytes.

use crate::readings_tests::{WHOLE, read};
use std::alloc::{AllocError, Global};
use std::fmt::Write;

/// Lets the input end after each byte, and writes what comes, and the numbers of bytes for which it does.
pub fn push_ends(alloc: Global, bytes: &[u8], answer: &mut String) -> Result<(), AllocError> {
    answer.push_str(" |")?;
    let mut from = 0;
    let mut text = read(alloc, &[], WHOLE)?.text;
    for end in 1..=bytes.len() {
        let next = read(alloc, &bytes[..end], WHOLE)?.text;
        if next.as_str() != text.as_str() {
            write!(answer, " {from}..{end}: {text};")?;
            from = end;
            text = next;
        }
    }
    write!(answer, " {from}: {text}")
}
