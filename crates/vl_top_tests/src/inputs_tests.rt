//! Lines for `load`.
use std::alloc::{AllocError, Global};

/// Returns this many groups of 1,000 lines: one row, and blank lines.
pub fn group_lines(alloc: Global, groups: usize) -> Result<Vec<u8>, AllocError> {
    let mut group = Vec::from_slice(alloc, b"{\"_msg\":\"a\"}\n")?;
    for _ in 0..999usize {
        group.push(b'\n')?;
    }
    let mut bytes = Vec::new(alloc);
    for _ in 0..groups {
        bytes.extend_from_slice(group.as_slice())?;
    }
    Ok(bytes)
}

/// Returns this many rows, one a line.
pub fn row_lines(alloc: Global, rows: usize) -> Result<Vec<u8>, AllocError> {
    let mut bytes = Vec::new(alloc);
    for _ in 0..rows {
        bytes.extend_from_slice(b"{\"_msg\":\"a\"}\n")?;
    }
    Ok(bytes)
}
