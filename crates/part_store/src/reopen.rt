//! Reading a store from its vault.
ghost use Rattle.std.specs.Prelude.{◌≡◌, ◌⊎◌, ◌≤◌, ◌∷◌, ◌++◌, Err, IfErr, IfOk, OnOk, [], length, map, true};
ghost use Rattle.std.specs.Arc.{arc_value};
ghost use Rattle.std.specs.List.{AllZip};
ghost use Rattle.vl_io.specs.Faults.{HasCause, Rose};
ghost use Rattle.vl_vault.specs.Disk.{content};
ghost use Rattle.vl_vault.specs.Moments.{Always, IsUnchanged};
ghost use Rattle.parts_list.specs.Listing.{is_list};
ghost use Rattle.parts_list.specs.Writing.{AreSlotsDurable};
ghost use Rattle.part_batches.specs.Whole.{HoldBatches};
ghost use Rattle.part_store.specs.Finds.{FindsBatches, HasPart, HoldsBatches, IsOnVault};
ghost use Rattle.part_store.specs.Preparing.{IsWhole, parts_of, state_of};
ghost use Rattle.part_store.specs.Reopening.{AreListedDurable, IsEntryFault, IsFirstFault, IsOnlySynced, IsOutside};
ghost use Rattle.part_store.specs.Reopening.{IsPartOf, IsPartsFault, IsReopenFault, IsStoredAt, Parts, RowLists};
ghost use Rattle.part_store.specs.Reopening.{Rows, listed_with};
ghost use Rattle.part_store.specs.State.{listed_of};

use crate::catalog::Catalog;
use crate::fault::{ReopenFault, file_fault, list_fault};
use crate::store::Stored;
use part_batches::are_batches;
use part_file::Part;
use part_files::read_part;
use parts_list::{Entry, List, read_list};
use std::alloc::{AllocError, Global};
use std::sync::Arc;
use vl_io::Failed;
use vl_vault::Vault;

/// Where the front of a list stands in its slot: after the gate, the magic, the version and the generation.
const FRONT_AT: u64 = 17;

/// Syncs the slots, and reads the list and its parts.
pub(crate) fn read_catalog<V: Vault>(alloc: Global, vault: &mut V) -> Result<Catalog, ReopenFault>
    requires durable { V.is_told → AreListedDurable (V.past vault.old) }
    ensures whole { IfOk result IsWhole }
    ensures batches { IfOk result (λ catalog. HoldsBatches (state_of catalog)) }
    ensures on { V.is_told → IfOk result (λ catalog.
        IsOnVault catalog.list (parts_of catalog) (V.past vault.new)) }
    ensures moments { V.is_told → Always (IsOnlySynced (V.past vault.old)) (V.past vault.old) (V.past vault.new) }
    ensures only { V.is_told → FindsBatches (content (V.past vault.old)) → IfErr result IsOutside }
    ensures damaged { V.is_told → IfErr result (λ fault. IsReopenFault fault (content (V.past vault.old))) }
    ensures fault { result ≡ Err ReopenFault.VaultFault → Rose (V.faults vault.old) (V.faults vault.new) }
    ensures stays { V.faults vault.old ≤ V.faults vault.new }
{
    sync_slots(vault)?;
    match read_list(alloc, vault) {
        Ok(None) => Ok(Catalog::empty(alloc)),
        Ok(Some(list)) => read_listed(alloc, vault, list),
        Err(fault) => Err(list_fault(fault)),
    }
}

/// Syncs the slots of the list.
fn sync_slots<V: Vault>(vault: &mut V) -> Result<(), Failed>
    ensures moments { V.is_told → Always (IsOnlySynced (V.past vault.old)) (V.past vault.old) (V.past vault.new) }
    ensures durable { V.is_told → OnOk result (AreSlotsDurable (V.past vault.new)) }
    ensures cause { HasCause (V.faults vault.old) (V.faults vault.new) result }
{
    vault.sync(0)?;
    vault.sync(1)?;
    Ok(())
}

/// Reads the parts of the list.
fn read_listed<V: Vault>(alloc: Global, vault: &mut V, list: List) -> Result<Catalog, ReopenFault>
    requires { is_list list ≡ true }
    ensures whole { IfOk result IsWhole }
    ensures list { IfOk result (λ catalog. catalog.list ≡ list) }
    ensures batches { IfOk result (λ catalog. HoldsBatches (state_of catalog)) }
    ensures found { V.is_told → IfOk result (λ catalog.
        AllZip (HasPart (content (V.past vault.old))) list.entries (parts_of catalog)) }
    ensures moments { V.is_told → Always (IsUnchanged (V.past vault.old)) (V.past vault.old) (V.past vault.new) }
    ensures only { V.is_told → (parts : Parts) → AllZip (HasPart (content (V.past vault.old))) list.entries parts
        → HoldBatches list.front (map (λ part. part.rows) parts) → IfErr result IsOutside }
    ensures damaged { V.is_told → IfErr result (λ fault.
        IsPartsFault fault list (content (V.past vault.old))) }
    ensures fault { result ≡ Err ReopenFault.VaultFault → Rose (V.faults vault.old) (V.faults vault.new) }
    ensures stays { V.faults vault.old ≤ V.faults vault.new }
{
    let parts = read_parts(alloc, vault, list.entries.as_slice())?;
    if !are_batches(alloc, &parts, list.front)? {
        return Err(ReopenFault::Damaged {
            file: list.generation % 2,
            at: FRONT_AT,
        });
    }
    let parts = with_entries(alloc, list.entries.as_slice(), &parts)?;
    Ok(Catalog { parts, list })
}

/// Reads the part of each entry.
fn read_parts<V: Vault>(
    alloc: Global,
    vault: &mut V,
    entries: &[Entry],
) -> Result<Vec<Arc<Part>>, ReopenFault>
    ensures parts { IfOk result (λ parts. AllZip IsPartOf entries.now (map arc_value parts.items)) }
    ensures found { V.is_told → IfOk result (λ parts.
        AllZip (IsStoredAt (content (V.past vault.old))) entries.now (map arc_value parts.items)) }
    ensures moments { V.is_told → Always (IsUnchanged (V.past vault.old)) (V.past vault.old) (V.past vault.new) }
    ensures only { V.is_told → (parts : RowLists)
        → AllZip (IsStoredAt (content (V.past vault.old))) entries.now parts → IfErr result IsOutside }
    ensures damaged { V.is_told → IfErr result (λ fault. (fault ≡ ReopenFault.Memory)
        ⊎ IsFirstFault fault entries.now (content (V.past vault.old))) }
    ensures fault { result ≡ Err ReopenFault.VaultFault → Rose (V.faults vault.old) (V.faults vault.new) }
    ensures stays { V.faults vault.old ≤ V.faults vault.new }
{
    let mut parts = Vec::with_capacity(alloc, entries.len())?;
    for i in 0..entries.len() {
        let part = read_shared(alloc, vault, entries[i])?;
        append(&mut parts, part)?;
    }
    Ok(parts)
}

/// Reads the part of the entry.
fn read_shared<V: Vault>(
    alloc: Global,
    vault: &mut V,
    entry: Entry,
) -> Result<Arc<Part>, ReopenFault>
    ensures part { IfOk result (λ part. IsPartOf entry (arc_value part)) }
    ensures found { V.is_told → IfOk result (λ part. IsStoredAt (content (V.past vault.old)) entry (arc_value part)) }
    ensures moments { V.is_told → Always (IsUnchanged (V.past vault.old)) (V.past vault.old) (V.past vault.new) }
    ensures only { V.is_told → (part : Rows) → IsStoredAt (content (V.past vault.old)) entry part
        → IfErr result IsOutside }
    ensures damaged { V.is_told → IfErr result (λ fault. IsEntryFault fault entry (content (V.past vault.old))) }
    ensures fault { result ≡ Err ReopenFault.VaultFault → Rose (V.faults vault.old) (V.faults vault.new) }
    ensures stays { V.faults vault.old ≤ V.faults vault.new }
{
    match read_part(alloc, vault, entry) {
        Ok(part) => shared(alloc, part),
        Err(fault) => Err(file_fault(entry.file, fault)),
    }
}

/// Appends the part.
fn append(parts: &mut Vec<Arc<Part>>, part: Arc<Part>) -> Result<(), AllocError>
    ensures { OnOk result (parts.new.items ≡ parts.old.items ++ part ∷ []) }
{
    match parts.push(part) {
        Ok(()) => Ok(()),
        Err(_) => Err(AllocError),
    }
}

/// Puts the part into a shared box.
fn shared(alloc: Global, part: Part) -> Result<Arc<Part>, ReopenFault>
    ensures same { IfOk result (λ shared. arc_value shared ≡ part) }
    ensures only { IfErr result (λ fault. fault ≡ ReopenFault.Memory) }
{
    match Arc::new(alloc, part) {
        Ok(part) => Ok(part),
        Err(_) => Err(ReopenFault::Memory),
    }
}

/// Returns the parts, each with the day and the file of its entry.
fn with_entries(
    alloc: Global,
    entries: &[Entry],
    parts: &[Arc<Part>],
) -> Result<Vec<Stored>, AllocError>
    requires { length parts.now ≡ length entries.now }
    ensures { IfOk result (λ stored.
        map listed_of stored.items ≡ listed_with entries.now (map arc_value parts.now)) }
{
    let mut stored = Vec::with_capacity(alloc, parts.len())?;
    for i in 0..parts.len() {
        let Entry {
            day,
            file,
            bytes: _bytes,
        } = entries[i];
        stored.push(Stored {
            day,
            file,
            part: Arc::try_clone(&parts[i])?,
        })?;
    }
    Ok(stored)
}
