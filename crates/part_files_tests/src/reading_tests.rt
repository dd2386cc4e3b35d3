//! Files that are read.

use crate::crash_tests;
use part_files::{read_part, write_part};
use parts_list::Entry;
use std::alloc::{AllocError, Global};
use vl_row::Held;
use vl_vault::MemoryVault;

/// Returns what is written of a line.
pub fn answer(alloc: Global, line: &str) -> Result<String, AllocError> {
    if let Some(name) = line.strip_prefix("check ") {
        return crash_tests::holds(alloc, name)
            .unwrap_or(false)
            .to_string(alloc);
    }
    let (day, rest) = line.split_once(' ').unwrap_or((line, ""));
    let (size, digits) = rest.split_once(' ').unwrap_or((rest, ""));
    let content = bytes_of(alloc, digits)?;
    let entry = Entry {
        day: day.parse::<u32>().unwrap_or(0),
        file: 2,
        bytes: size.parse::<u64>().unwrap_or(0),
    };
    part_text(alloc, entry, &content)
}

/// Returns what the entry's part says, where its file has this content.
fn part_text(alloc: Global, entry: Entry, content: &[u8]) -> Result<String, AllocError> {
    let mut vault = MemoryVault::of(alloc, &[])?;
    if write_part(&mut vault, entry.file, content).is_err() {
        return Err(AllocError);
    }
    match read_part(alloc, &mut vault, entry) {
        Ok(part) => format!(in alloc; "part {} {}", part.rows(), part.weight()),
        Err(fault) => format!(in alloc; "{fault:?}"),
    }
}

/// Returns the bytes that pairs of digits stand for.
fn bytes_of(alloc: Global, digits: &str) -> Result<Vec<u8>, AllocError> {
    let mut bytes = Vec::new(alloc);
    let mut high = None;
    for c in digits.chars() {
        let digit = c.to_digit(16).unwrap_or(0) as u8 % 16;
        match high {
            None => high = Some(digit),
            Some(first) => {
                bytes.push(first % 16 * 16 + digit)?;
                high = None;
            }
        }
    }
    Ok(bytes)
}
