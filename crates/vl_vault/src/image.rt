//! What a crash may leave, by choice.
ghost use Rattle.std.specs.Prelude.{◌≡◌, ◌∷◌, ◌++◌, ◌+◌, ◌-◌, ◌<◌, ◌≤◌, List, ℕ, IfOk, OnOk, Some, length};
ghost use Rattle.std.specs.Prelude.{vec_len};
ghost use Rattle.vl_vault.specs.Disk.{IsCrashImage, IsTorn, MayLeave, Past, content};
ghost use Rattle.vl_vault.specs.Moments.{IsDurable};
ghost use Rattle.vl_vault.specs.Record.{event_of, past_of};
ghost use Rattle.vl_vault.specs.Replay.{BeginsFile, file_of, touches};

use crate::call::{Call, after_cut, note, overwrite};
use std::alloc::{AllocError, Global};
use std::collections::BTreeSet;

/// Returns what a crash after these calls leaves of each file that they were on, as the contents that a vault begins
/// with.
#[tactic(auto, using(crate::proofs::Covering::covers_more, crate::proofs::Covering::covers_skip))]
pub fn crash_contents(alloc: Global, calls: &[Call], choice: u64) -> Result<Vec<Call>, AllocError>
    ensures contents { IfOk result (λ begun. IsCrashImage (past_of calls.now) (content (past_of begun.items))) }
    ensures durable { IfOk result (λ begun. (file : ℕ) → IsDurable (past_of begun.items) file) }
{
    let outcomes = outcomes(alloc, calls, choice)?;
    let mut begun = Vec::new(alloc);
    for i in 0..calls.len() {
        if let Some(file) = calls[i].file() {
            begin_file(alloc, calls, &outcomes, &mut begun, file)?;
        }
    }
    Ok(begun)
}

/// Adds what a crash leaves of the file, unless it is there.
fn begin_file(
    alloc: Global,
    calls: &[Call],
    outcomes: &[u64],
    begun: &mut Vec<Call>,
    file: u64,
) -> Result<(), AllocError>
    requires { length outcomes.now ≡ length calls.now }
    ensures { OnOk result (BeginsFile (past_of calls.now) (past_of begun.old.items) (past_of begun.new.items) file) }
{
    if touches(begun, file) {
        return Ok(());
    }
    let bytes = crash_content(alloc, calls, outcomes, file)?;
    note(begun, Call::Initial { file, bytes })
}

/// Returns whether one of the calls is on the file.
fn touches(calls: &[Call], file: u64) -> bool
    ensures { result ≡ touches (past_of calls.now) file }
{
    let mut found = false;
    for call in calls {
        if let Some(f) = call.file() {
            found = f == file || found;
        }
    }
    found
}

/// Returns the outcome of each call. The choice is spent on the calls that are pending, the newest first: those after
/// the last sync of their file.
fn outcomes(alloc: Global, calls: &[Call], choice: u64) -> Result<Vec<u64>, AllocError>
    ensures { IfOk result (λ outcomes. vec_len outcomes ≡ length calls.now) }
{
    let mut outcomes = vec![in alloc; 0u64; calls.len()]?;
    let mut synced = BTreeSet::new(alloc);
    let mut left = choice;
    for i in (0..calls.len()).rev() {
        if left == 0 {
            break;
        }
        match &calls[i] {
            Call::Sync { file } => {
                synced.insert(*file)?;
            }
            call if !is_on(call, &synced) => {
                let count = outcome_count(call);
                outcomes[i] = left % count;
                left /= count;
            }
            _ => {}
        }
    }
    Ok(outcomes)
}

/// Returns whether the call was on one of the files.
fn is_on(call: &Call, files: &BTreeSet<u64>) -> bool {
    match call.file() {
        Some(file) => files.contains(&file),
        None => false,
    }
}

/// Returns how many outcomes a crash has for a pending call. A write of n bytes has 4n + 1: it did not happen, or a
/// front of its range has its own bytes, or 0, 1 or 255 throughout. A cut has two.
fn outcome_count(call: &Call) -> u64
    ensures { 0 < result }
{
    match call {
        Call::Write { piece, .. } => write_outcomes(piece.len()),
        Call::Shorten { .. } => 2,
        _ => 1,
    }
}

/// Returns how many outcomes a write of this many bytes has.
pub fn write_outcomes(length: usize) -> u64
    ensures { 0 < result }
{
    (length as u64).saturating_mul(4).saturating_add(1)
}

/// Returns what a crash leaves of the file, where each call has this outcome.
fn crash_content(
    alloc: Global,
    calls: &[Call],
    outcomes: &[u64],
    file: u64,
) -> Result<Vec<u8>, AllocError>
    requires { length outcomes.now ≡ length calls.now }
    ensures { IfOk result (λ bytes. MayLeave (past_of calls.now) file bytes.items) }
{
    let mut left = Vec::new(alloc);
    let mut now: &[u8] = &[];
    for i in 0..calls.len() {
        if calls[i].file() == Some(file) {
            left = left_after(alloc, left, now, &calls[i], outcomes[i])?;
            now = calls[i].content_after(now, file);
        }
    }
    Ok(left)
}

/// Returns what a crash leaves of a file after one call more on it. Before that call it left `left`, and a read gave
/// `now`.
fn left_after(
    alloc: Global,
    left: Vec<u8>,
    now: &[u8],
    call: &Call,
    outcome: u64,
) -> Result<Vec<u8>, AllocError>
    ensures { IfOk result (λ bytes. (past : Past) (file : ℕ) → file_of (event_of call.now) ≡ Some file
        → MayLeave past file left.items → content past file ≡ now.now
        → MayLeave (event_of call.now ∷ past) file bytes.items) }
{
    match call {
        Call::Initial { bytes, .. } => Vec::from_slice(alloc, bytes),
        Call::Write { at, piece, .. } => torn(alloc, &left, *at, piece, outcome),
        Call::Shorten { length, .. } => after_cut(alloc, &left, *length, outcome != 0),
        Call::Sync { .. } => Vec::from_slice(alloc, now),
        Call::Unchanged => Ok(left),
    }
}

/// Returns one outcome of a torn write. At 0 the write did not happen. Else a front of its range has other bytes, and
/// so has what lies between the end of the file and that range.
#[tactic(auto, using(crate::proofs::Tearing::torn_over))]
pub fn torn(
    alloc: Global,
    left: &[u8],
    at: u64,
    piece: &[u8],
    outcome: u64,
) -> Result<Vec<u8>, AllocError>
    ensures { IfOk result (λ bytes. IsTorn at (length piece.now) left.now bytes.items) }
{
    if outcome == 0 {
        return Vec::from_slice(alloc, left);
    }
    let front = torn_front(alloc, piece, outcome - 1)?;
    let base = extended(alloc, left, at, fill_of(outcome - 1).unwrap_or(0))?;
    overwrite(alloc, &base, at as usize, &front)
}

/// Returns the bytes that a front of a torn write's range has.
fn torn_front(alloc: Global, piece: &[u8], outcome: u64) -> Result<Vec<u8>, AllocError>
    ensures { IfOk result (λ front. vec_len front ≤ length piece.now) }
{
    let size = (outcome / 4 + 1).min(piece.len() as u64) as usize;
    match fill_of(outcome) {
        Some(fill) => Ok(vec![in alloc; fill; size]?),
        None => Vec::from_slice(alloc, &piece[..size]),
    }
}

/// Returns the byte that stands throughout a torn range. Without one the range has its own bytes.
fn fill_of(outcome: u64) -> Option<u8> {
    match outcome % 4 {
        0 => None,
        1 => Some(0),
        2 => Some(1),
        _ => Some(255),
    }
}

/// Returns the bytes, followed by as many as are missing up to this length.
fn extended(alloc: Global, bytes: &[u8], to: u64, fill: u8) -> Result<Vec<u8>, AllocError>
    ensures { IfOk result (λ new. (more : List ℕ) × (new.items ≡ bytes.now ++ more)
        × (length more ≡ to - length bytes.now)) }
{
    let mut new = Vec::from_slice(alloc, bytes)?;
    if to > bytes.len() as u64 {
        new.resize(to as usize, fill)?;
    }
    Ok(new)
}
