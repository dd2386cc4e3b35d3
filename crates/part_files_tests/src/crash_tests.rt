//! Files that are written over and removed, and what crashes and faults leave of them.

use part_files::{FileFault, read_part, remove_part, write_part};
use parts_list::Entry;
use std::alloc::Global;
use vl_row::Held;
use vl_vault::{MemoryVault, Vault};

/// The bytes of a part of one row at the time 5.
const PART: [u8; 66] = [
    0x56, 0x4c, 0x50, 0x41, 0x52, 0x54, 1, 0, // the magic and the version
    1, 0, 0, 0, 50, 0, 0, 0, // one block, and its length
    0, 0, 1, 0, 1, 0, // no label, one row, one column
    5, 0, 0, 0, 0, 0, 0, 0, // the time
    1, 0, 0, 0, 0, 0, 0, 0, // the batch
    0, 0, 0, 0, // the place
    4, 0, 0x5f, 0x6d, 0x73, 0x67, 0, // the name and the kind of the column
    1, 0, 0, 0, 0, 0xf0, 3, 0, 0, 0, 0, 0, // the filter of its words
    1, 0, 0, 0, 0x61, // the value
];

/// How many images of each moment are tried.
const IMAGES: u64 = 300;

/// Returns the entry of that part in a file.
fn entry_of(file: u64) -> Entry {
    Entry {
        day: 0,
        file,
        bytes: 66,
    }
}

/// Returns whether the file has that part.
fn has_part(alloc: Global, vault: &mut MemoryVault, file: u64) -> Result<bool, FileFault> {
    match read_part(alloc, vault, entry_of(file)) {
        Ok(part) => Ok(part.rows() == 1),
        Err(FileFault::Damaged { .. }) => Ok(false),
        Err(fault) => Err(fault),
    }
}

/// Returns whether a part takes the place of a longer content.
fn is_written_over(alloc: Global) -> Result<bool, FileFault> {
    let mut vault = MemoryVault::of(alloc, &[])?;
    write_part(&mut vault, 7, &[9; 200])?;
    write_part(&mut vault, 7, &PART)?;
    Ok(vault.length(7)? == 66 && has_part(alloc, &mut vault, 7)?)
}

/// Returns whether nothing is left of a file that was removed, and another one stays.
fn is_removed(alloc: Global) -> Result<bool, FileFault> {
    let mut vault = MemoryVault::of(alloc, &[])?;
    write_part(&mut vault, 7, &PART)?;
    write_part(&mut vault, 8, &PART)?;
    remove_part(&mut vault, 7)?;
    let fault = read_part(alloc, &mut vault, entry_of(7)).err();
    Ok(
        fault == Some(FileFault::Damaged { at: 0 })
            && vault.length(7)? == 0
            && has_part(alloc, &mut vault, 8)?,
    )
}

/// Returns whether the file has the part in each image of the moment after so many calls.
fn has_each(alloc: Global, vault: &MemoryVault, call: u64, file: u64) -> Result<bool, FileFault> {
    if vault.calls() < call {
        return Ok(false);
    }
    for choice in 0..IMAGES {
        let mut image = vault.image(call, choice)?;
        if !has_part(alloc, &mut image, file)? {
            return Ok(false);
        }
    }
    Ok(true)
}

/// Returns whether a crash leaves a part that was written, and the first one at each moment while another one is
/// written and removed.
fn is_durable(alloc: Global) -> Result<bool, FileFault> {
    let mut vault = MemoryVault::of(alloc, &[])?;
    write_part(&mut vault, 7, &PART)?;
    let first = vault.calls();
    write_part(&mut vault, 8, &PART)?;
    let second = vault.calls();
    remove_part(&mut vault, 8)?;
    let mut holds = has_each(alloc, &vault, second, 8)?;
    for call in first..vault.calls().saturating_add(1) {
        holds = has_each(alloc, &vault, call, 7)? && holds;
    }
    Ok(holds)
}

/// Returns whether a call that fails is told: one of the first three by writing, and the other two by reading.
fn is_fault(alloc: Global, failing: u64) -> Result<bool, FileFault> {
    let mut vault = MemoryVault::of(alloc, &[failing])?;
    let written = write_part(&mut vault, 7, &PART).is_ok();
    if !written {
        return Ok(failing < 3 && vault.faults() == 1 && vault.calls() == failing.saturating_add(1));
    }
    let fault = read_part(alloc, &mut vault, entry_of(7)).err();
    Ok(failing >= 3 && fault == Some(FileFault::VaultFault) && vault.faults() == 1)
}

/// Returns whether the check of this name holds.
pub fn holds(alloc: Global, name: &str) -> Result<bool, FileFault> {
    if let Some(call) = name.strip_prefix("fault ") {
        return is_fault(alloc, call.parse::<u64>().unwrap_or(9));
    }
    match name {
        "is_written_over" => is_written_over(alloc),
        "is_removed" => is_removed(alloc),
        "is_durable" => is_durable(alloc),
        _ => Ok(false),
    }
}
