//! What a case says of an input: its bytes, how they come, and which calls fail.
ghost use Rattle.std.specs.Prelude.{◌<◌, All, IfOk};

use crate::spelling_tests::bytes_of;
use std::alloc::{AllocError, Global};

/// Returns the bytes of an input whose parts have this text between them: this many times the same, and then others.
pub fn input(alloc: Global, case: &str, between: &str) -> Result<Vec<u8>, AllocError> {
    let (count, case) = case.split_once(between).unwrap_or((case, ""));
    let (first, last) = case.split_once(between).unwrap_or((case, ""));
    let count: u32 = count.parse().unwrap_or(1);
    let first = bytes_of(alloc, first)?;
    let mut bytes = Vec::new(alloc);
    for _ in 0..count {
        bytes.extend_from_slice(&first)?;
    }
    bytes.extend_from_slice(&bytes_of(alloc, last)?)?;
    Ok(bytes)
}

/// Returns pieces of this length for all bytes, or no pieces.
pub fn pieces(alloc: Global, count: usize, len: usize) -> Result<Vec<usize>, AllocError>
    ensures { IfOk result (λ pieces. All (λ piece. 0 < piece) pieces.items) }
{
    if len == 0 {
        return Ok(Vec::new(alloc));
    }
    vec![in alloc; len; count]
}

/// Returns the number of the call that fails, if one does.
pub fn listed(alloc: Global, call: Option<u64>) -> Result<Vec<u64>, AllocError> {
    let mut calls = Vec::new(alloc);
    if let Some(call) = call {
        calls.push(call)?;
    }
    Ok(calls)
}
