//! When a round is due.
use std::alloc::{AllocError, Global};
use vl_serve::{is_due, longest_wait};

/// Returns the longest waits at the edges of their steps.
pub fn waits(alloc: Global) -> Result<String, AllocError> {
    let mut text = String::new(alloc);
    for rewritten in [
        0,
        999_999,
        1_000_000,
        1_999_999,
        24_999_999,
        25_000_000,
        26_000_000,
        u64::MAX,
    ] {
        let wait = longest_wait(rewritten);
        write!(text, "{wait} ")?;
    }
    Ok(text)
}

/// Returns whether a round is due by the number of batches that wait.
pub fn by_waiting(alloc: Global) -> Result<String, AllocError> {
    let mut text = String::new(alloc);
    for waiting in [0, 1, 255, 256, 4_096] {
        let (early, late) = (
            is_due(waiting, 0, 0, false),
            is_due(waiting, u64::MAX, 0, false),
        );
        write!(text, "{waiting} {early} {late}, ")?;
    }
    Ok(text)
}

/// Returns whether a round is due for one batch by the pauses since the last round, and by what that wrote.
pub fn by_pauses(alloc: Global) -> Result<String, AllocError> {
    let mut text = String::new(alloc);
    for (pauses, rewritten) in [
        (499, 0),
        (500, 0),
        (500, 1_000_000),
        (599, 1_000_000),
        (600, 1_000_000),
        (2_999, u64::MAX),
        (3_000, u64::MAX),
    ] {
        let due = is_due(1, pauses, rewritten, false);
        write!(text, "{pauses} {due}, ")?;
    }
    Ok(text)
}

/// Returns whether a round is due once the doors have ended, with no batch that waits and with one.
pub fn by_end(alloc: Global) -> Result<String, AllocError> {
    let (idle, busy) = (is_due(0, 0, u64::MAX, true), is_due(1, 0, u64::MAX, true));
    format!(in alloc; "{idle} {busy}")
}
