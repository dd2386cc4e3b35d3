//! Stores over lists whose bytes stand here: of the last numbers, of numbers beyond them, and of another version.

use crate::store_tests::{TestFault, add, crashed_store};
use part_store::{ReopenFault, Store, StoreFault};
use std::alloc::{AllocError, Global};
use vl_vault::{MemoryVault, Vault};

/// The last generation, and the last number that the next file can have.
const LAST: u64 = 0x7fff_ffff_ffff_ffff;

/// A list that has no parts.
#[derive(Clone, Copy)]
struct Bare {
    version: u16,
    generation: u64,
    next_file: u64,
}

/// Returns the bytes of the slot of a list.
fn slot_of(alloc: Global, list: Bare) -> Result<Vec<u8>, AllocError> {
    let mut bytes = Vec::from_slice(alloc, b"\x01VLLIST")?;
    bytes.extend_from_slice(&list.version.to_le_bytes())?;
    bytes.extend_from_slice(&list.generation.to_le_bytes())?;
    bytes.extend_from_slice(&[0; 8])?;
    bytes.extend_from_slice(&list.next_file.to_le_bytes())?;
    bytes.extend_from_slice(&[0; 4])?;
    Ok(bytes)
}

/// Returns the store of a vault that has the list in this slot.
fn store_in(alloc: Global, slot: u64, list: Bare) -> Result<Store<MemoryVault>, TestFault> {
    let mut vault = MemoryVault::of(alloc, &[])?;
    let bytes = slot_of(alloc, list)?;
    if vault.write_at(slot, 0, &bytes).is_err() || vault.sync(slot).is_err() {
        return Err(TestFault::Memory);
    }
    crashed_store(alloc, &vault, vault.calls(), 0)
}

/// Returns the list of these numbers.
fn list_of(generation: u64, next_file: u64) -> Bare {
    Bare {
        version: 1,
        generation,
        next_file,
    }
}

/// Returns the store of the list of these numbers, in its slot.
fn store_of(
    alloc: Global,
    generation: u64,
    next_file: u64,
) -> Result<Store<MemoryVault>, TestFault> {
    store_in(alloc, generation % 2, list_of(generation, next_file))
}

/// Returns whether the store has these numbers, and has not halted.
fn has_numbers(store: &Store<MemoryVault>, generation: u64, next_file: u64, front: u64) -> bool {
    let same = store.generation() == generation && store.next_file() == next_file;
    same && store.front() == front && store.halted().is_none()
}

/// Returns whether the store takes one batch more, and is spent then.
fn takes_one(alloc: Global, generation: u64, next_file: u64) -> Result<bool, TestFault> {
    let mut store = store_of(alloc, generation, next_file)?;
    let begun = has_numbers(&store, generation, next_file, 0);
    add(alloc, &mut store, 3, 1)?;
    let (list, file) = (generation.saturating_add(1), next_file.saturating_add(1));
    let added = has_numbers(&store, list, file, 1) && store.parts().len() == 1;
    let again = add(alloc, &mut store, 3, 2);
    let refused = again == Err(TestFault::Store(StoreFault::Spent));
    Ok(begun && added && refused && has_numbers(&store, list, file, 1))
}

/// Returns whether the store takes no batch, and is as before then.
fn is_spent(alloc: Global, generation: u64, next_file: u64) -> Result<bool, TestFault> {
    let mut store = store_of(alloc, generation, next_file)?;
    let again = add(alloc, &mut store, 3, 1);
    let refused = again == Err(TestFault::Store(StoreFault::Spent));
    Ok(refused && store.parts().is_empty() && has_numbers(&store, generation, next_file, 0))
}

/// Returns whether the store of such a list is refused for this fault.
fn is_refused(alloc: Global, slot: u64, list: Bare, fault: ReopenFault) -> bool {
    match store_in(alloc, slot, list) {
        Ok(_) => false,
        Err(found) => found == TestFault::Reopen(fault),
    }
}

/// Returns whether lists of numbers beyond the limits are damaged where these numbers stand.
fn are_refused(alloc: Global) -> bool {
    let beyond = LAST.saturating_add(1);
    let generation = ReopenFault::Damaged { file: 0, at: 9 };
    let next_file = ReopenFault::Damaged { file: 1, at: 25 };
    is_refused(alloc, 0, list_of(beyond, 2), generation)
        && is_refused(alloc, 1, list_of(1, 1), next_file)
        && is_refused(alloc, 1, list_of(1, beyond), next_file)
}

/// Returns whether a list of this version is refused for it, in both slots.
fn is_other_version(alloc: Global, version: u16) -> bool {
    let mut same = true;
    for slot in 0..2u64 {
        let list = Bare {
            version,
            generation: 2 + slot,
            next_file: 2,
        };
        let fault = ReopenFault::Version {
            file: slot,
            found: version,
        };
        same = same && is_refused(alloc, slot, list, fault);
    }
    same
}

/// Returns whether the check of this name holds.
pub fn holds(alloc: Global, name: &str) -> Result<bool, TestFault> {
    match name {
        "one list more" => takes_one(alloc, LAST - 1, 2),
        "one file more" => takes_one(alloc, 1, LAST - 1),
        "no list more" => is_spent(alloc, LAST, 2),
        "no file more" => is_spent(alloc, 1, LAST),
        "numbers beyond" => Ok(are_refused(alloc)),
        "other version" => Ok(is_other_version(alloc, 2) && is_other_version(alloc, 0x0100)),
        _ => Ok(false),
    }
}
