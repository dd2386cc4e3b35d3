//! Slots that are read.

use crate::crash_tests;
use parts_list::{List, read_list};
use std::alloc::{AllocError, Global};
use vl_vault::{MemoryVault, Vault};

/// Returns what is written of a line.
pub fn answer(alloc: Global, line: &str) -> Result<String, AllocError> {
    if let Some(name) = line.strip_prefix("check ") {
        return crash_tests::holds(alloc, name)
            .unwrap_or(false)
            .to_string(alloc);
    }
    let mut words = line.split(' ');
    let first = bytes_of(alloc, words.next().unwrap_or(""))?;
    let second = bytes_of(alloc, words.next().unwrap_or(""))?;
    let mut vault = MemoryVault::of(alloc, &[])?;
    if vault.write_at(0, 0, &first).is_err() || vault.write_at(1, 0, &second).is_err() {
        return Err(AllocError);
    }
    match read_list(alloc, &mut vault) {
        Ok(None) => String::from_str(alloc, "no list"),
        Ok(Some(list)) => list_text(alloc, &list),
        Err(fault) => format!(in alloc; "{fault:?}"),
    }
}

/// Returns the numbers of the list.
fn list_text(alloc: Global, list: &List) -> Result<String, AllocError> {
    let (generation, front, next_file) = (list.generation, list.front, list.next_file);
    let mut text = format!(in alloc; "list {generation} {front} {next_file}")?;
    for entry in list.entries.as_slice() {
        let (day, file, bytes) = (entry.day, entry.file, entry.bytes);
        write!(text, " {day}:{file}:{bytes}")?;
    }
    Ok(text)
}

/// Returns the bytes that pairs of digits stand for.
fn bytes_of(alloc: Global, digits: &str) -> Result<Vec<u8>, AllocError> {
    let mut bytes = Vec::new(alloc);
    let mut high = None;
    for c in digits.chars() {
        let digit = c.to_digit(16).unwrap_or(0) as u8 % 16;
        match high {
            None => high = Some(digit),
            Some(first) => {
                bytes.push(first % 16 * 16 + digit)?;
                high = None;
            }
        }
    }
    Ok(bytes)
}
