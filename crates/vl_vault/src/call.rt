//! The record of the calls on a vault in memory.
ghost use Rattle.std.specs.Prelude.{◌≡◌, ◌+◌, ◌∷◌, ◌≤◌, IfOk, OnErr, OnOk, length, take, true, vec_len};
ghost use Rattle.vl_vault.specs.Calls.{overwritten};
ghost use Rattle.vl_vault.specs.Disk.{IsCut, content, content_after};
ghost use Rattle.vl_vault.specs.Record.{event_of, past_of};
ghost use Rattle.vl_vault.specs.Replay.{file_of};

use std::alloc::{AllocError, Global};

/// What one call did. `after` is what a read of the file gives once the call is over.
#[derive(Debug, Drop)]
pub enum Call {
    /// The call changed no file.
    Unchanged,
    /// No call: the vault began with this content of the file.
    Initial {
        file: u64,
        bytes: Vec<u8>,
    },
    Write {
        file: u64,
        at: u64,
        piece: Vec<u8>,
        after: Vec<u8>,
    },
    Shorten {
        file: u64,
        length: u64,
        after: Vec<u8>,
    },
    Sync {
        file: u64,
    },
}

impl Call {
    /// Returns the file that the call was on.
    pub fn file(&self) -> Option<u64>
        ensures { result ≡ file_of (event_of self.now) }
    {
        match self {
            Call::Unchanged => None,
            Call::Initial { file, .. } => Some(*file),
            Call::Write { file, .. } => Some(*file),
            Call::Shorten { file, .. } => Some(*file),
            Call::Sync { file } => Some(*file),
        }
    }

    /// Returns what a read of the file gives after this call, where it gave `old` before.
    pub fn content_after<'a>(&'a self, old: &'a [u8], file: u64) -> &'a [u8]
        ensures { result.now ≡ content_after old.now (event_of self.now) file }
    {
        let (changed, after) = match self {
            Call::Unchanged | Call::Sync { .. } => return old,
            Call::Initial { file, bytes } => (*file, bytes),
            Call::Write { file, after, .. } => (*file, after),
            Call::Shorten { file, after, .. } => (*file, after),
        };
        if changed == file { after } else { old }
    }
}

/// Adds a call to the record.
pub fn note(calls: &mut Vec<Call>, call: Call) -> Result<(), AllocError>
    ensures ok { OnOk result (past_of calls.new.items ≡ event_of call ∷ past_of calls.old.items) }
    ensures err { OnErr result (past_of calls.new.items ≡ past_of calls.old.items) }
    ensures ok_count { OnOk result (vec_len calls.new ≡ vec_len calls.old + 1) }
    ensures err_count { OnErr result (vec_len calls.new ≡ vec_len calls.old) }
{
    calls.push(call)?;
    Ok(())
}

/// Returns what a read of the file gives after these calls.
pub fn content(calls: &[Call], file: u64) -> &[u8]
    ensures { result.now ≡ content (past_of calls.now) file }
{
    let mut bytes: &[u8] = &[];
    for call in calls {
        bytes = call.content_after(bytes, file);
    }
    bytes
}

/// Returns the bytes with the piece in place of those from `at` on.
pub fn overwrite(alloc: Global, old: &[u8], at: usize, piece: &[u8]) -> Result<Vec<u8>, AllocError>
    requires { at ≤ length old.now }
    ensures { IfOk result (λ new. new.items ≡ overwritten old.now at piece.now) }
{
    let mut new = Vec::from_slice(alloc, &old[..at])?;
    new.extend_from_slice(piece)?;
    if piece.len() < old.len() - at {
        new.extend_from_slice(&old[at + piece.len()..])?;
    }
    Ok(new)
}

/// Returns what a read gives after a cut, which is done or leaves what was there.
pub fn after_cut(alloc: Global, old: &[u8], length: u64, done: bool) -> Result<Vec<u8>, AllocError>
    ensures cut { IfOk result (λ new. IsCut length old.now new.items) }
    ensures whole { done ≡ true → IfOk result (λ new. new.items ≡ take length old.now) }
{
    if !done || length >= old.len() as u64 {
        return Vec::from_slice(alloc, old);
    }
    Vec::from_slice(alloc, &old[..length as usize])
}
