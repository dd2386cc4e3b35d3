//! Changing the vault.
ghost use Rattle.std.specs.Prelude.{◌≡◌, ◌<◌, ◌≤◌, ◌+◌, ◌^◌, All, Contains, OnOk, length, map, vec_items, ℕ};
ghost use Rattle.vl_io.specs.Faults.{HasCause};
ghost use Rattle.vl_vault.specs.Moments.{Always, EachImage};
ghost use Rattle.part_store.specs.Finds.{FindsOldOr, IsOnVault};
ghost use Rattle.part_store.specs.Preparing.{ChangesOnly, HaveContents, IsNewFile, IsPrepared, IsWhole, parts_of};
ghost use Rattle.part_store.specs.State.{day_part_of};

use crate::catalog::{Catalog, Prepared};
use part_file::Part;
use part_files::{remove_part, write_part};
use parts_list::write_spelled;
use std::sync::Arc;
use vl_io::Failed;
use vl_vault::Vault;

/// Writes the new files, then the list, and then removes the old files.
pub(crate) fn put_on_vault<V: Vault>(
    vault: &mut V,
    catalog: &Catalog,
    next: &Prepared,
    old: &[u64],
    new: &[(u32, Arc<Part>)],
) -> Result<(), Failed>
    requires vault { V.is_told → IsOnVault catalog.now.list (parts_of catalog.now) (V.past vault.old) }
    requires whole { IsWhole catalog.now }
    requires next { (front : ℕ) × IsPrepared old.now (map day_part_of new.now) front catalog.now next.now }
    requires listed { All (Contains (map (λ part. part.file) (parts_of catalog.now))) old.now }
    ensures moments { V.is_told → Always
        (EachImage (FindsOldOr catalog.now.list.front (parts_of catalog.now)
        next.now.catalog.list.front (parts_of next.now.catalog)))
        (V.past vault.old) (V.past vault.new) }
    ensures done { V.is_told → OnOk result
        (IsOnVault next.now.catalog.list (parts_of next.now.catalog) (V.past vault.new)) }
    ensures cause { HasCause (V.faults vault.old) (V.faults vault.new) result }
{
    write_files(vault, catalog.list.next_file, &next.files)?;
    write_spelled(vault, &next.catalog.list, &next.body)?;
    remove_files(vault, old)?;
    Ok(())
}

/// Writes a file of each content, from the first file on.
fn write_files<V: Vault>(vault: &mut V, first: u64, contents: &[Vec<u8>]) -> Result<(), Failed>
    requires { first + length contents.now < 2 ^ 63 }
    ensures moments { V.is_told → Always
        (ChangesOnly (IsNewFile first (length contents.now)) (V.past vault.old))
        (V.past vault.old) (V.past vault.new) }
    ensures written { V.is_told → OnOk result
        (HaveContents first (map vec_items contents.now) (V.past vault.new)) }
    ensures cause { HasCause (V.faults vault.old) (V.faults vault.new) result }
{
    for i in 0..contents.len() {
        write_part(vault, first + i as u64, &contents[i])?;
    }
    Ok(())
}

/// Removes the files.
fn remove_files<V: Vault>(vault: &mut V, files: &[u64]) -> Result<(), Failed>
    ensures moments { V.is_told → Always (ChangesOnly (Contains files.now) (V.past vault.old))
        (V.past vault.old) (V.past vault.new) }
    ensures cause { HasCause (V.faults vault.old) (V.faults vault.new) result }
{
    for file in files {
        remove_part(vault, *file)?;
    }
    Ok(())
}
