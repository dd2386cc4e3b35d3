//! Stores over vaults in memory, with parts of one row.
ghost use Rattle.std.specs.Prelude.{◌^◌, ◌<◌, Contains, IfOk, IfSome, map, ℕ};
ghost use Rattle.std.specs.Arc.{arc_value};
ghost use Rattle.vl_vault.specs.Moments.{IsDurable};
ghost use Rattle.day_model.specs.Days.{LieInDay};

use part_file::Part;
use part_files::{FileFault, read_part, write_part};
use part_store::{ReopenFault, Store, StoreFault};
use parts_list::Entry;
use std::alloc::{AllocError, Global};
use std::sync::Arc;
use vl_vault::MemoryVault;

/// Why a check was not made.
#[derive(Clone, Copy, Debug, Drop, PartialEq, Eq)]
pub enum TestFault {
    Memory,
    File(FileFault),
    Reopen(ReopenFault),
    Store(StoreFault),
}

impl From<AllocError> for TestFault {
    fn from(_: AllocError) -> TestFault {
        TestFault::Memory
    }
}

impl From<FileFault> for TestFault {
    fn from(fault: FileFault) -> TestFault {
        TestFault::File(fault)
    }
}

impl From<StoreFault> for TestFault {
    fn from(fault: StoreFault) -> TestFault {
        TestFault::Store(fault)
    }
}

/// The bytes of a part of one row, without its time and its batch.
const BEFORE: [u8; 22] = [
    0x56, 0x4c, 0x50, 0x41, 0x52, 0x54, 1, 0, // the magic and the version
    1, 0, 0, 0, 50, 0, 0, 0, // one block, and its length
    0, 0, 1, 0, 1, 0, // no label, one row, one column
];

/// The bytes after the number of the batch.
const AFTER: [u8; 28] = [
    0, 0, 0, 0, // the place
    4, 0, 0x5f, 0x6d, 0x73, 0x67, 0, // the name and the kind of the column
    1, 0, 0, 0, 0, 0xf0, 3, 0, 0, 0, 0, 0, // the filter of its words
    1, 0, 0, 0, 0x61, // the value
];

/// Returns the part of one row of this day, which is the batch of this number.
fn part_of(alloc: Global, day: u32, batch: u64) -> Result<Arc<Part>, TestFault>
    ensures { IfOk result (λ part. LieInDay day (arc_value part)) }
{
    let time = (day as u64).saturating_mul(86_400_000_000_000);
    let mut bytes = Vec::from_slice(alloc, &BEFORE)?;
    bytes.extend_from_slice(&time.to_le_bytes())?;
    bytes.extend_from_slice(&batch.to_le_bytes())?;
    bytes.extend_from_slice(&AFTER)?;
    let mut vault = MemoryVault::of(alloc, &[])?;
    if write_part(&mut vault, 2, &bytes).is_err() {
        return Err(TestFault::Memory);
    }
    let entry = Entry {
        day,
        file: 2,
        bytes: 66,
    };
    let part = read_part(alloc, &mut vault, entry)?;
    match Arc::new(alloc, part) {
        Ok(part) => Ok(part),
        Err(_) => Err(TestFault::Memory),
    }
}

/// Returns the store that the vault has.
pub fn reopen_store(alloc: Global, vault: MemoryVault) -> Result<Store<MemoryVault>, TestFault>
    requires { (file : ℕ) → IsDurable vault.past file }
{
    match Store::reopen(alloc, vault) {
        Ok(store) => Ok(store),
        Err((fault, _)) => Err(TestFault::Reopen(fault)),
    }
}

/// Returns the store of a new vault, whose calls of these numbers fail.
pub fn new_store(alloc: Global, failing: &[u64]) -> Result<Store<MemoryVault>, TestFault> {
    let vault = MemoryVault::of(alloc, failing)?;
    reopen_store(alloc, vault)
}

/// Returns the store that a crash after so many calls leaves, by a choice.
pub fn crashed_store(
    alloc: Global,
    vault: &MemoryVault,
    call: u64,
    choice: u64,
) -> Result<Store<MemoryVault>, TestFault> {
    if vault.calls() < call {
        return Err(TestFault::Memory);
    }
    let image = vault.image(call, choice)?;
    reopen_store(alloc, image)
}

/// Adds the batch of this number, a row of this day.
pub fn add(
    alloc: Global,
    store: &mut Store<MemoryVault>,
    day: u32,
    batch: u64,
) -> Result<(), TestFault>
    requires { batch < 2 ^ 63 }
{
    let part = part_of(alloc, day, batch)?;
    store.replace(alloc, &[], &[(day, part)], batch)?;
    Ok(())
}

/// Returns the file of the first part.
fn first_file(store: &Store<MemoryVault>) -> Option<u64>
    ensures { IfSome result (Contains (map (λ part. part.file) store.now.parts)) }
{
    match store.parts() {
        [first, ..] => Some(first.file),
        [] => None,
    }
}

/// Puts the batch of this number, a row of this day, in the place of the first part.
pub fn replace_first(
    alloc: Global,
    store: &mut Store<MemoryVault>,
    day: u32,
    batch: u64,
) -> Result<(), TestFault>
    requires { batch < 2 ^ 63 }
{
    let Some(file) = first_file(store) else {
        return Ok(());
    };
    let part = part_of(alloc, day, batch)?;
    store.replace(alloc, &[file], &[(day, part)], batch)?;
    Ok(())
}
