//! What crashes and faults leave while parts are replaced.

use crate::numbers_tests;
use crate::store_tests::{TestFault, add, crashed_store, new_store, replace_first};
use part_store::{ReopenFault, Store, StoreFault};
use std::alloc::Global;
use vl_row::Held;
use vl_vault::MemoryVault;

/// How many images of each moment are tried.
const IMAGES: u64 = 100;

/// Makes one of three changes: a part of a later day, one of an earlier day, and one in the place of the latter.
fn change(alloc: Global, store: &mut Store<MemoryVault>, number: u64) -> Result<(), TestFault> {
    match number {
        1 => add(alloc, store, 3, 1),
        2 => add(alloc, store, 1, 2),
        _ => replace_first(alloc, store, 1, 2),
    }
}

/// Returns the days and the files of the parts after so many changes.
fn places(number: u64) -> &'static [(u32, u64)] {
    match number {
        0 => &[],
        1 => &[(3, 2)],
        2 => &[(1, 3), (3, 2)],
        _ => &[(1, 4), (3, 2)],
    }
}

/// Returns whether the store has the parts after so many changes, in their order.
fn has_places(store: &Store<MemoryVault>, number: u64) -> bool {
    let wanted = places(number);
    let parts = store.parts();
    let mut same = parts.len() == wanted.len();
    for (part, place) in parts.iter().zip(wanted) {
        same = same && part.day == place.0 && part.file == place.1 && part.part.rows() == 1;
    }
    same && store.front() == number.min(2) && store.generation() == number
}

/// Returns the vault after so many changes, each of which is made.
fn vault_after(alloc: Global, number: u64) -> Result<MemoryVault, TestFault> {
    let mut store = new_store(alloc, &[])?;
    for i in 0..number {
        change(alloc, &mut store, i.saturating_add(1))?;
        if !has_places(&store, i.saturating_add(1)) {
            return Err(TestFault::Memory);
        }
    }
    Ok(store.into_vault())
}

/// How many images had the parts from before, how many the new ones, and how many neither.
#[derive(Drop)]
struct Counts {
    old: u64,
    new: u64,
    neither: u64,
}

/// Tries images of the moment after this call, during the change of this number.
fn try_moment(
    alloc: Global,
    vault: &MemoryVault,
    call: u64,
    number: u64,
    counts: &mut Counts,
) -> Result<(), TestFault> {
    for choice in 0..IMAGES {
        let store = crashed_store(alloc, vault, call, choice)?;
        if has_places(&store, number) {
            counts.new = counts.new.saturating_add(1);
        } else if has_places(&store, number.saturating_sub(1)) {
            counts.old = counts.old.saturating_add(1);
        } else {
            counts.neither = counts.neither.saturating_add(1);
        }
    }
    Ok(())
}

/// Returns whether a crash at each moment of this change leaves the parts from before or the new ones.
fn leaves_old_or_new(alloc: Global, number: u64) -> Result<bool, TestFault> {
    let from = vault_after(alloc, number.saturating_sub(1))?.calls();
    let vault = vault_after(alloc, number)?;
    let mut counts = Counts {
        old: 0,
        new: 0,
        neither: 0,
    };
    for call in from..vault.calls().saturating_add(1) {
        try_moment(alloc, &vault, call, number, &mut counts)?;
    }
    Ok(counts.old > 300 && counts.new > 60 && counts.neither == 0)
}

/// Makes changes until a call on the vault fails, and returns how many were made.
fn made_changes(alloc: Global, store: &mut Store<MemoryVault>) -> Result<u64, TestFault> {
    let mut made = 0;
    for number in 1..4u64 {
        match change(alloc, store, number) {
            Ok(()) => made = number,
            Err(TestFault::Store(StoreFault::VaultFault)) => return Ok(made),
            Err(fault) => return Err(fault),
        }
    }
    Ok(made)
}

/// Returns whether each image of the last moment has the parts after so many changes, or after one more.
fn leaves_one_of_two(alloc: Global, vault: &MemoryVault, made: u64) -> Result<bool, TestFault> {
    let mut same = true;
    for choice in 0..IMAGES {
        let store = crashed_store(alloc, vault, vault.calls(), choice)?;
        same = same && (has_places(&store, made) || has_places(&store, made.saturating_add(1)));
    }
    Ok(same)
}

/// Returns whether the store halts where this call fails, and the vault has the parts from before or the new ones. The
/// first four calls are those of the reopening, which then refuses.
fn halts(alloc: Global, failing: u64) -> Result<bool, TestFault> {
    let mut store = match new_store(alloc, &[failing]) {
        Ok(store) => store,
        Err(fault) => return Ok(failing < 4 && fault == TestFault::Reopen(ReopenFault::VaultFault)),
    };
    let made = made_changes(alloc, &mut store)?;
    let again = add(alloc, &mut store, 5, 4);
    let refused = again == Err(TestFault::Store(StoreFault::Halted { fault: 1 }));
    let kept = store.halted() == Some(1) && has_places(&store, made);
    let vault = store.into_vault();
    Ok(refused && kept && leaves_one_of_two(alloc, &vault, made)?)
}

/// Returns whether the store halts where the removal of the old part fails, and nothing else does. Then each image has
/// the new parts, since their list was synced before.
fn halts_at_removal(alloc: Global) -> Result<bool, TestFault> {
    let calls = vault_after(alloc, 3)?.calls();
    let mut store = new_store(alloc, &[calls.saturating_sub(1)])?;
    let made = made_changes(alloc, &mut store)?;
    let halted = made == 2 && store.halted() == Some(1) && has_places(&store, 2);
    let vault = store.into_vault();
    let mut same = halted && vault.calls() == calls;
    for choice in 0..IMAGES {
        let store = crashed_store(alloc, &vault, vault.calls(), choice)?;
        same = same && has_places(&store, 3);
    }
    Ok(same)
}

/// Returns whether the check of this name holds.
pub fn holds(alloc: Global, name: &str) -> Result<bool, TestFault> {
    if let Some(call) = name.strip_prefix("fault ") {
        return halts(alloc, call.parse::<u64>().unwrap_or(0));
    }
    if let Some(number) = name.strip_prefix("change ") {
        return leaves_old_or_new(alloc, number.parse::<u64>().unwrap_or(0));
    }
    if name == "removal" {
        return halts_at_removal(alloc);
    }
    numbers_tests::holds(alloc, name)
}
