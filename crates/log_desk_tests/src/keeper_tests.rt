//! That rounds of a keeper write what was inserted, and what faults and crashes leave.

use crate::batches_tests::{batch_at, row_count, rows_of};
use crate::kept_tests::{KeptDesk, reopened};
use crate::keys_tests::keys_of;
use log_desk::{InsertFault, KeepFault};
use part_store::Store;
use std::alloc::{AllocError, Global};
use std::sync::Wait;
use vl_row::Held;
use vl_vault::MemoryVault;

/// The last nanosecond of 2024-05-01, which is the day 19,844 since the start of 1970.
const LAST: i64 = 1_714_607_999_999_999_999;

/// The choices by which images of a crash are taken.
const CHOICES: [u64; 8] = [0, 1, 2, 7, 1_000, 123_456_789, 1 << 40, u64::MAX];

/// Inserts a batch of a row for each of these times, with this message.
fn insert_at<R: Wait>(
    rt: &R,
    alloc: Global,
    kept: &mut KeptDesk,
    times: &[i64],
    message: &str,
) -> Result<u64, InsertFault> {
    let Ok(Some(batch)) = batch_at(alloc, times, message) else {
        return Err(InsertFault::Memory);
    };
    kept.insert(rt, alloc, batch)
}

/// Inserts a batch of one row, and has a round follow. Returns whether both answer this number, and all is settled.
fn is_kept<R: Wait>(rt: &R, alloc: Global, kept: &mut KeptDesk, number: u64) -> bool {
    insert_at(rt, alloc, kept, &[0], "a") == Ok(number)
        && kept.round(rt, alloc) == Ok(number)
        && kept.settled() == number
        && kept.status(rt) == (number, number)
}

/// Returns whether the store has one part, of three rows, after three lists.
fn has_one_part(store: &Store<MemoryVault>) -> bool {
    let numbers = (store.generation(), store.front(), store.next_file());
    match store.parts() {
        [only] => {
            numbers == (3, 3, 5) && only.day == 0 && only.file == 4 && only.part.rows() == 3
        }
        _ => false,
    }
}

/// Returns whether a round after each of three batches of one day leaves one part of them.
pub fn rounds_settle<R: Wait>(rt: &R, alloc: Global) -> Result<bool, AllocError> {
    let Some(mut kept) = KeptDesk::fresh(rt, alloc, &[])? else {
        return Ok(false);
    };
    for number in 1..4u64 {
        if !is_kept(rt, alloc, &mut kept, number) {
            return Ok(false);
        }
    }
    let look = kept.look(rt)?;
    let held = look.front() == 3 && look.settled() == 3 && rows_of(&look, "a") == 3;
    Ok(held && has_one_part(kept.store()))
}

/// Inserts this many batches of one row, and says whether they got their numbers in turn.
fn inserts_in_turn<R: Wait>(rt: &R, alloc: Global, kept: &mut KeptDesk, count: u64) -> bool {
    for number in 1..=count {
        if insert_at(rt, alloc, kept, &[0], "a") != Ok(number) {
            return false;
        }
    }
    true
}

/// Returns whether a desk that is full takes a batch again after a round.
pub fn full_settles<R: Wait>(rt: &R, alloc: Global) -> Result<bool, AllocError> {
    let Some(mut kept) = KeptDesk::fresh(rt, alloc, &[])? else {
        return Ok(false);
    };
    let taken = inserts_in_turn(rt, alloc, &mut kept, 4_096);
    let full = insert_at(rt, alloc, &mut kept, &[0], "b") == Err(InsertFault::Full { held: 4_096 });
    let settled = kept.round(rt, alloc) == Ok(4_096);
    let next = insert_at(rt, alloc, &mut kept, &[0], "b") == Ok(4_097);
    let counted = kept.status(rt) == (4_097, 4_096);
    Ok(taken && full && settled && next && counted && row_count(&kept.look(rt)?) == 4_097)
}

/// Returns how many calls the vault had after a batch of one row and this many rounds.
fn calls_after<R: Wait>(rt: &R, alloc: Global, rounds: u64) -> Result<Option<u64>, AllocError> {
    let Some(mut kept) = KeptDesk::fresh(rt, alloc, &[])? else {
        return Ok(None);
    };
    if insert_at(rt, alloc, &mut kept, &[0], "a").is_err() {
        return Ok(None);
    }
    for _ in 0..rounds {
        if kept.round(rt, alloc) != Ok(1) {
            return Ok(None);
        }
    }
    Ok(Some(kept.into_vault().calls()))
}

/// Returns whether rounds without new batches make no call on the vault.
pub fn quiet_rounds<R: Wait>(rt: &R, alloc: Global) -> Result<bool, AllocError> {
    let none = calls_after(rt, alloc, 0)?;
    let one = calls_after(rt, alloc, 1)?;
    let four = calls_after(rt, alloc, 4)?;
    Ok(none.is_some() && none < one && one == four)
}

/// Returns whether the store halts where this call fails, in the round of the first batch, and the desk goes on.
fn halts<R: Wait>(rt: &R, alloc: Global, failing: u64) -> Result<bool, AllocError> {
    let Some(mut kept) = KeptDesk::fresh(rt, alloc, &[failing])? else {
        return Ok(false);
    };
    let halted = Err(KeepFault::Halted { fault: 1 });
    let first = insert_at(rt, alloc, &mut kept, &[0], "a") == Ok(1);
    let failed = kept.round(rt, alloc) == Err(KeepFault::VaultFault);
    let second = insert_at(rt, alloc, &mut kept, &[0], "b") == Ok(2);
    let refused = kept.round(rt, alloc) == halted;
    let look = kept.look(rt)?;
    let whole = look.front() == 2 && rows_of(&look, "a") == 1 && rows_of(&look, "b") == 1;
    let unsettled = kept.status(rt) == (2, 0);
    let again = kept.round(rt, alloc) == halted;
    let vault = kept.into_vault();
    let calls = vault.calls() == failing.saturating_add(1);
    Ok(first && failed && second && refused && whole && unsettled && again && calls)
}

/// Returns whether the store halts whichever call of a round fails.
pub fn faults_halt<R: Wait>(rt: &R, alloc: Global) -> Result<bool, AllocError> {
    let (Some(from), Some(to)) = (calls_after(rt, alloc, 0)?, calls_after(rt, alloc, 1)?) else {
        return Ok(false);
    };
    for failing in from..to {
        if !halts(rt, alloc, failing)? {
            return Ok(false);
        }
    }
    Ok(from < to)
}

/// Returns whether the store has a part of this many rows for each of the two days.
fn has_both_days(store: &Store<MemoryVault>, rows: u64) -> bool {
    match store.parts() {
        [first, second] => {
            (first.day, second.day) == (19_844, 19_845)
                && first.part.rows() == rows
                && second.part.rows() == rows
        }
        _ => false,
    }
}

/// Returns whether rows on both sides of midnight come into the parts of their days, and those of the next batch join
/// them there.
pub fn days_part<R: Wait>(rt: &R, alloc: Global) -> Result<bool, AllocError> {
    let Some(mut kept) = KeptDesk::fresh(rt, alloc, &[])? else {
        return Ok(false);
    };
    let next = LAST.saturating_add(1);
    for number in 1..3u64 {
        let inserted = insert_at(rt, alloc, &mut kept, &[LAST, next], "a") == Ok(number);
        let settled = kept.round(rt, alloc) == Ok(number);
        if !inserted || !settled || !has_both_days(kept.store(), number) {
            return Ok(false);
        }
    }
    let keys = keys_of(alloc, &kept.look(rt)?)?;
    let wanted = [(LAST, 1, 0), (LAST, 2, 0), (next, 1, 1), (next, 2, 1)];
    Ok(keys.as_slice() == wanted.as_slice())
}

/// Returns the vault of two batches that are settled, and then this many more, which a round settles.
fn vault_with<R: Wait>(
    rt: &R,
    alloc: Global,
    more: u64,
) -> Result<Option<MemoryVault>, AllocError> {
    let Some(mut kept) = KeptDesk::fresh(rt, alloc, &[])? else {
        return Ok(None);
    };
    if !inserts_in_turn(rt, alloc, &mut kept, 2) || kept.round(rt, alloc) != Ok(2) {
        return Ok(None);
    }
    for _ in 0..more {
        if insert_at(rt, alloc, &mut kept, &[LAST], "b").is_err() {
            return Ok(None);
        }
    }
    if kept.round(rt, alloc) != Ok(more.saturating_add(2)) {
        return Ok(None);
    }
    Ok(Some(kept.into_vault()))
}

/// Returns how many batches a store of an image has, whose batches are of one row, or `None` where it is refused or has
/// other rows.
fn front_left(
    alloc: Global,
    vault: &MemoryVault,
    call: u64,
    choice: u64,
) -> Result<Option<u64>, AllocError> {
    if vault.calls() < call {
        return Ok(None);
    }
    let image = vault.image(call, choice)?;
    let Some(store) = reopened(alloc, image) else {
        return Ok(None);
    };
    let mut rows: u64 = 0;
    for stored in store.parts() {
        rows = rows.saturating_add(stored.part.rows());
    }
    let whole = rows == store.front() && store.halted().is_none();
    Ok(if whole { Some(rows) } else { None })
}

/// Returns the fewest and the most batches that a crash after so many calls leaves.
fn fronts_left(
    alloc: Global,
    vault: &MemoryVault,
    call: u64,
) -> Result<Option<(u64, u64)>, AllocError> {
    let mut least = u64::MAX;
    let mut most = 0;
    for choice in CHOICES {
        let Some(front) = front_left(alloc, vault, call, choice)? else {
            return Ok(None);
        };
        least = least.min(front);
        most = most.max(front);
    }
    Ok(Some((least, most)))
}

/// Returns whether a crash at each moment of a round leaves the batches from before or the new ones too.
pub fn crashes_leave<R: Wait>(rt: &R, alloc: Global) -> Result<bool, AllocError> {
    let (Some(before), Some(vault)) = (vault_with(rt, alloc, 0)?, vault_with(rt, alloc, 1)?) else {
        return Ok(false);
    };
    let from = before.calls();
    let to = vault.calls();
    for call in from..=to {
        match fronts_left(alloc, &vault, call)? {
            Some((2, 2 | 3)) | Some((3, 3)) => {}
            _ => return Ok(false),
        }
    }
    let first = fronts_left(alloc, &vault, from)? == Some((2, 2));
    Ok(first && from < to && fronts_left(alloc, &vault, to)? == Some((3, 3)))
}

/// Returns whether a desk over what a crash leaves after a round has the batches of that round, settled, and takes more
/// of the same day into the same part.
pub fn goes_on<R: Wait>(rt: &R, alloc: Global) -> Result<bool, AllocError> {
    let Some(vault) = vault_with(rt, alloc, 0)? else {
        return Ok(false);
    };
    let Some(mut kept) = KeptDesk::after_crash(rt, alloc, &vault, 7)? else {
        return Ok(false);
    };
    let found = kept.settled() == 2 && rows_of(&kept.look(rt)?, "a") == 2;
    let next = is_kept(rt, alloc, &mut kept, 3);
    let keys = keys_of(alloc, &kept.look(rt)?)?;
    Ok(found && next && keys.as_slice() == [(0, 1, 0), (0, 2, 0), (0, 3, 0)].as_slice())
}
