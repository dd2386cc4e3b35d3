//! Reading the live list.
ghost use Rattle.std.specs.Prelude.{◌≡◌, ◌⊎◌, ◌≤◌, ◌≢◌, Err, IfErr, IfNone, IfOk, IfSome, Some};
ghost use Rattle.std.specs.Prelude.{ℕ};
ghost use Rattle.vl_io.specs.Faults.{Rose};
ghost use Rattle.vl_vault.specs.Disk.{content};
ghost use Rattle.vl_vault.specs.Moments.{Always, IsUnchanged};
ghost use Rattle.byte_format.specs.Spelling.{IsDamagedAt};
ghost use Rattle.parts_list.specs.Format.{slot_format, slot_writing};
ghost use Rattle.parts_list.specs.Reading.{HasOtherVersion, IsBroken, IsFaultIn, IsFaultOf, KeepsRules, slot_with};
ghost use Rattle.parts_list.specs.Slots.{found_in, is_open, live, slot_of};

use crate::format::{HEAD, VERSION};
use crate::gate::has_open_gate;
use crate::list::{List, ListFault};
use byte_format::{Fault, read_exactly};
use std::alloc::Global;
use vl_vault::Vault;

/// Reads the live list. Returns `None` if no gate is open.
pub fn read_list<V: Vault>(alloc: Global, vault: &mut V) -> Result<Option<List>, ListFault>
    ensures moments { V.is_told → Always (IsUnchanged (V.past vault.old)) (V.past vault.old) (V.past vault.new) }
    ensures found { V.is_told → IfOk result (λ list. found_in (content (V.past vault.old)) ≡ Some list) }
    ensures rules { IfOk result KeepsRules }
    ensures damaged { V.is_told → IfErr result (λ fault. IsFaultOf fault (content (V.past vault.old))) }
    ensures fault { result ≡ Err ListFault.VaultFault → Rose (V.faults vault.old) (V.faults vault.new) }
    ensures stays { V.faults vault.old ≤ V.faults vault.new }
{
    let first = read_slot(alloc, vault, 0)?;
    let second = read_slot(alloc, vault, 1)?;
    Ok(newer(first, second))
}

/// Reads the list in the slot. Returns `None` if the slot is closed, of which only the front is read.
fn read_slot<V: Vault>(alloc: Global, vault: &mut V, slot: u64) -> Result<Option<List>, ListFault>
    ensures moments { V.is_told → Always (IsUnchanged (V.past vault.old)) (V.past vault.old) (V.past vault.new) }
    ensures found { V.is_told → IfOk result (λ list.
        slot_of slot (content (V.past vault.old) slot) ≡ slot_with list) }
    ensures rules { IfOk result KeepsRules }
    ensures damaged { V.is_told → IfErr result (λ fault. IsFaultIn fault slot (content (V.past vault.old) slot)) }
    ensures fault { result ≡ Err ListFault.VaultFault → Rose (V.faults vault.old) (V.faults vault.new) }
    ensures stays { V.faults vault.old ≤ V.faults vault.new }
{
    if !has_open_gate(vault, slot)? {
        return Ok(None);
    }
    read_open_slot(alloc, vault, slot)
}

/// Reads the list in the slot from all its bytes.
fn read_open_slot<V: Vault>(
    alloc: Global,
    vault: &mut V,
    slot: u64,
) -> Result<Option<List>, ListFault>
    ensures moments { V.is_told → Always (IsUnchanged (V.past vault.old)) (V.past vault.old) (V.past vault.new) }
    ensures found { V.is_told → IfOk result (λ list.
        slot_of slot (content (V.past vault.old) slot) ≡ slot_with list) }
    ensures rules { IfOk result KeepsRules }
    ensures damaged { V.is_told → IfErr result (λ fault. IsFaultIn fault slot (content (V.past vault.old) slot)) }
    ensures fault { result ≡ Err ListFault.VaultFault → Rose (V.faults vault.old) (V.faults vault.new) }
    ensures stays { V.faults vault.old ≤ V.faults vault.new }
{
    let bytes = slot_bytes(alloc, vault, slot)?;
    let list = list_in(alloc, slot, &bytes)?;
    Ok(list)
}

/// Reads the bytes of the slot.
fn slot_bytes<V: Vault>(alloc: Global, vault: &mut V, slot: u64) -> Result<Vec<u8>, ListFault>
    ensures moments { V.is_told → Always (IsUnchanged (V.past vault.old)) (V.past vault.old) (V.past vault.new) }
    ensures bytes { V.is_told → IfOk result (λ bytes. bytes.items ≡ content (V.past vault.old) slot) }
    ensures only { IfErr result (λ fault. (fault ≡ ListFault.VaultFault) ⊎ (fault ≡ ListFault.Memory)) }
    ensures fault { result ≡ Err ListFault.VaultFault → Rose (V.faults vault.old) (V.faults vault.new) }
    ensures stays { V.faults vault.old ≤ V.faults vault.new }
{
    let length = vault.length(slot)?;
    let mut bytes = vec![in alloc; 0u8; length as usize]?;
    let count = vault.read(slot, 0, &mut bytes)?;
    bytes.truncate(count);
    Ok(bytes)
}

/// Returns the list that a slot of these bytes has, or `None` if its gate is closed.
fn list_in(alloc: Global, slot: u64, bytes: &[u8]) -> Result<Option<List>, ListFault>
    ensures found { IfOk result (λ list. slot_of slot bytes.now ≡ slot_with list) }
    ensures rules { IfOk result KeepsRules }
    ensures damaged { IfErr result (λ fault. IsFaultIn fault slot bytes.now) }
    ensures inside { IfErr result (λ fault. fault ≢ ListFault.VaultFault) }
{
    if !is_open(bytes) {
        return Ok(None);
    }
    match read_exactly::<List>(alloc, slot, bytes) {
        Ok(list) => Ok(Some(list)),
        Err(Fault::Memory) => Err(ListFault::Memory),
        Err(Fault::Damaged { at }) => Err(fault_at(slot, bytes, at)),
    }
}

/// Returns whether the slot's gate is open.
fn is_open(bytes: &[u8]) -> bool
    ensures { result ≡ is_open bytes.now }
{
    match bytes {
        [gate, _, ..] => *gate == 1,
        _ => false,
    }
}

/// Returns the fault of a slot whose first damaged item is at this place.
fn fault_at(slot: u64, bytes: &[u8], at: usize) -> ListFault
    requires broken { IsBroken slot bytes.now }
    requires damaged { IsDamagedAt slot_format (slot_writing slot) bytes.now at }
    ensures fault { IsFaultIn result slot bytes.now }
    ensures inside { result ≢ ListFault.VaultFault }
{
    match other_version(bytes) {
        Some(found) => ListFault::Version { slot, found },
        None => ListFault::Damaged {
            slot,
            at: at as u64,
        },
    }
}

/// Returns the version of a list of another version.
fn other_version(bytes: &[u8]) -> Option<u16>
    ensures some { IfSome result (HasOtherVersion bytes.now) }
    ensures none { IfNone result ((version : ℕ) → HasOtherVersion bytes.now version → ⊥) }
{
    if bytes.len() < HEAD.len() + 2 {
        return None;
    }
    let (head, rest) = bytes.split_at(HEAD.len());
    let (item, _) = rest.split_at(2);
    let version = u16::from_le_bytes([item[0], item[1]]);
    if head == HEAD && version != VERSION {
        return Some(version);
    }
    None
}

/// Returns the list of the greater generation.
fn newer(first: Option<List>, second: Option<List>) -> Option<List>
    ensures live { live (slot_with first) (slot_with second) ≡ Some result }
    ensures rules { KeepsRules first → KeepsRules second → KeepsRules result }
{
    let Some(one) = first else {
        return second;
    };
    let Some(other) = second else {
        return Some(one);
    };
    if one.generation < other.generation {
        Some(other)
    } else {
        Some(one)
    }
}
