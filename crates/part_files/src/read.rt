//! Reading the part of an entry.
ghost use Rattle.std.specs.Prelude.{◌≡◌, ◌≢◌, ◌≤◌, Err, IfErr, IfOk, List, Some, length};
ghost use Rattle.vl_io.specs.Faults.{Rose};
ghost use Rattle.vl_vault.specs.Disk.{content};
ghost use Rattle.vl_vault.specs.Moments.{Always, IsUnchanged};
ghost use Rattle.log_model.specs.History.{Numbered};
ghost use Rattle.day_model.specs.Days.{LieInDay};
ghost use Rattle.part_file.specs.Format.{part_writing};
ghost use Rattle.part_files.specs.Stored.{Fills, IsFileFault, IsOutside, IsStoredPart};

use crate::day::lies_in_day;
use crate::fault::{FileFault, fault_of};
use part_file::Part;
use parts_list::Entry;
use std::alloc::Global;
use vl_vault::Vault;

/// Reads the part of the entry, which is to have so many bytes and rows of this day only.
///
/// A file of another length than stated is damaged where the shorter of the two ends. Then it is what
/// `Part::from_bytes` says of its bytes. A part with a row of another day is damaged at 0.
pub fn read_part<V: Vault>(alloc: Global, vault: &mut V, entry: Entry) -> Result<Part, FileFault>
    ensures moments { V.is_told → Always (IsUnchanged (V.past vault.old)) (V.past vault.old) (V.past vault.new) }
    ensures found { V.is_told → IfOk result (λ part.
        IsStoredPart entry.day entry.bytes part (content (V.past vault.old) entry.file)) }
    ensures only { V.is_told → (part : List Numbered)
        → IsStoredPart entry.day entry.bytes part (content (V.past vault.old) entry.file) → IfErr result IsOutside }
    ensures damaged { V.is_told → IfErr result (λ fault.
        IsFileFault fault entry.day entry.bytes (content (V.past vault.old) entry.file)) }
    ensures size { IfOk result (Fills entry.bytes) }
    ensures day { IfOk result (LieInDay entry.day) }
    ensures fault { result ≡ Err FileFault.VaultFault → Rose (V.faults vault.old) (V.faults vault.new) }
    ensures stays { V.faults vault.old ≤ V.faults vault.new }
{
    let bytes = file_bytes(alloc, vault, entry)?;
    let part = part_in(alloc, entry.day, &bytes)?;
    Ok(part)
}

/// Reads the bytes of the file, if there are as many as stated. Memory is taken for no more than the file has.
fn file_bytes<V: Vault>(alloc: Global, vault: &mut V, entry: Entry) -> Result<Vec<u8>, FileFault>
    ensures moments { V.is_told → Always (IsUnchanged (V.past vault.old)) (V.past vault.old) (V.past vault.new) }
    ensures bytes { V.is_told → IfOk result (λ bytes. bytes.items ≡ content (V.past vault.old) entry.file) }
    ensures size { IfOk result (λ bytes. length bytes.items ≡ entry.bytes) }
    ensures only { V.is_told → length (content (V.past vault.old) entry.file) ≡ entry.bytes → IfErr result IsOutside }
    ensures damaged { V.is_told → IfErr result (λ fault.
        IsFileFault fault entry.day entry.bytes (content (V.past vault.old) entry.file)) }
    ensures fault { result ≡ Err FileFault.VaultFault → Rose (V.faults vault.old) (V.faults vault.new) }
    ensures stays { V.faults vault.old ≤ V.faults vault.new }
{
    let length = vault.length(entry.file)?;
    if length != entry.bytes {
        return Err(FileFault::Damaged {
            at: length.min(entry.bytes),
        });
    }
    let mut bytes = vec![in alloc; 0u8; length as usize]?;
    let count = vault.read(entry.file, 0, &mut bytes)?;
    bytes.truncate(count);
    if bytes.len() as u64 != entry.bytes {
        return Err(FileFault::Damaged {
            at: bytes.len() as u64,
        });
    }
    Ok(bytes)
}

/// Returns the part of this day that the bytes are.
fn part_in(alloc: Global, day: u32, bytes: &[u8]) -> Result<Part, FileFault>
    ensures found { IfOk result (λ part. part_writing part ≡ Some bytes.now) }
    ensures only { (part : List Numbered) → part_writing part ≡ Some bytes.now → LieInDay day part
        → IfErr result (λ fault. fault ≡ FileFault.Memory) }
    ensures damaged { IfErr result (λ fault. IsFileFault fault day (length bytes.now) bytes.now) }
    ensures day { IfOk result (LieInDay day) }
    ensures inside { IfErr result (λ fault. fault ≢ FileFault.VaultFault) }
{
    match Part::from_bytes(alloc, bytes) {
        Ok(part) => of_day(part, day),
        Err(fault) => Err(fault_of(fault)),
    }
}

/// Returns the part, if its rows lie in the day.
fn of_day(part: Part, day: u32) -> Result<Part, FileFault>
    ensures same { IfOk result (λ found. found ≡ part) }
    ensures day { IfOk result (LieInDay day) }
    ensures other { IfErr result (λ fault. fault ≡ FileFault.Damaged 0) }
    ensures outside { IfErr result (λ _. LieInDay day part → ⊥) }
{
    if lies_in_day(&part, day) {
        return Ok(part);
    }
    Err(FileFault::Damaged { at: 0 })
}
