//! What is prepared in memory before the vault is changed.
ghost use Rattle.std.specs.Prelude.{◌≡◌, ◌<◌, ◌≤◌, ◌+◌, ◌++◌, ◌∷◌, [], ◌^◌, All, IfOk, OnOk, length, map, ℕ, vec_items};
ghost use Rattle.std.specs.List.{AllByRecursion, filter};
ghost use Rattle.std.specs.List.Sorted.{IsNonDecreasingBy, IsPermutation};
ghost use Rattle.day_model.specs.Days.{AreOfTheirDays};
ghost use Rattle.part_store.specs.Finds.{CanBeWritten, entry_of};
ghost use Rattle.part_store.specs.Preparing.{IsPlaced, IsPrepared, IsSpelled, IsWhole, files_of, parts_of, placed_part};
ghost use Rattle.part_store.specs.Preparing.{state_of};
ghost use Rattle.part_store.specs.State.{IsSpent, added, day_part_of, is_day, kept, listed_of};

use crate::catalog::{Catalog, Placed, Prepared, is_among};
use crate::store::Stored;
use part_file::Part;
use parts_list::{Entry, List, spell_list};
use std::alloc::{AllocError, Global};
use std::sync::Arc;
use vl_row::Items;

/// Prepares the catalog in which the new parts stand in the place of those of the old files.
pub(crate) fn prepare(
    alloc: Global,
    catalog: &Catalog,
    old: &[u64],
    new: &[(u32, Arc<Part>)],
    front: u64,
) -> Result<Prepared, AllocError>
    requires whole { IsWhole catalog.now }
    requires room { IsSpent old.now (map day_part_of new.now) (state_of catalog.now) → ⊥ }
    requires front { front < 2 ^ 63 }
    requires days { AreOfTheirDays (map day_part_of new.now) }
    ensures { IfOk result (IsPrepared old.now (map day_part_of new.now) front catalog.now) }
{
    let files = spell_parts(alloc, new)?;
    let mut placed = kept_parts(alloc, catalog, old)?;
    add_parts(&mut placed, catalog.list.next_file, new, &files)?;
    let (parts, entries) = in_order(alloc, placed)?;
    let list = List {
        generation: catalog.list.generation + 1,
        front,
        next_file: catalog.list.next_file + new.len() as u64,
        entries: Items::of(entries),
    };
    let body = spell_list(alloc, &list)?;
    Ok(Prepared {
        catalog: Catalog { parts, list },
        body,
        files,
    })
}

/// Returns the bytes of each new part.
fn spell_parts(alloc: Global, new: &[(u32, Arc<Part>)]) -> Result<Vec<Vec<u8>>, AllocError>
    ensures files { IfOk result (λ files. map vec_items files.items ≡ files_of (map day_part_of new.now)) }
    ensures spelled { IfOk result (λ files. AllByRecursion IsSpelled (map day_part_of new.now)) }
{
    let mut files = Vec::with_capacity(alloc, new.len())?;
    for i in 0..new.len() {
        let bytes = new[i].1.to_bytes(alloc)?;
        files.push(bytes)?;
    }
    Ok(files)
}

/// Returns the parts of other files than these, with their entries.
fn kept_parts<'a>(
    alloc: Global,
    catalog: &'a Catalog,
    old: &[u64],
) -> Result<Vec<Placed<'a>>, AllocError>
    requires { IsWhole catalog.now }
    ensures parts { IfOk result (λ placed. map placed_part placed.items ≡ kept old.now (parts_of catalog.now)) }
    ensures placed { IfOk result (λ placed. All IsPlaced placed.items) }
{
    let entries = catalog.list.entries.as_slice();
    let mut placed = Vec::with_capacity(alloc, entries.len())?;
    for i in 0..entries.len() {
        let stored = &catalog.parts[i];
        let part = Placed {
            entry: entries[i],
            part: &stored.part,
        };
        keep(&mut placed, old, part)?;
    }
    Ok(placed)
}

/// Appends the part, if it is of another file than these.
fn keep<'a>(placed: &mut Vec<Placed<'a>>, old: &[u64], part: Placed<'a>) -> Result<(), AllocError>
    requires { IsPlaced part }
    ensures parts { OnOk result (map placed_part placed.new.items
        ≡ map placed_part placed.old.items ++ kept old.now (placed_part part.entry ∷ [])) }
    ensures placed { OnOk result (All IsPlaced placed.old.items → All IsPlaced placed.new.items) }
{
    if is_among(old, part.entry.file) {
        return Ok(());
    }
    placed.push(part)?;
    Ok(())
}

/// Appends the new parts, under the next files. The bytes of each are known.
fn add_parts<'a>(
    placed: &mut Vec<Placed<'a>>,
    next_file: u64,
    new: &'a [(u32, Arc<Part>)],
    files: &[Vec<u8>],
) -> Result<(), AllocError>
    requires room { next_file + length new.now < 2 ^ 63 }
    requires files { map vec_items files.now ≡ files_of (map day_part_of new.now) }
    requires spelled { AllByRecursion IsSpelled (map day_part_of new.now) }
    ensures parts { OnOk result (map placed_part placed.new.items
        ≡ map placed_part placed.old.items ++ added next_file (map day_part_of new.now)) }
    ensures placed { OnOk result (All IsPlaced placed.old.items → All IsPlaced placed.new.items) }
{
    for i in 0..new.len() {
        let part = &new[i];
        let bytes = files[i].len() as u64;
        let entry = new_entry(part.0, next_file + i as u64, bytes);
        placed.push(Placed {
            entry,
            part: &part.1,
        })?;
    }
    Ok(())
}

/// Returns the entry of a part.
fn new_entry(day: u32, file: u64, bytes: u64) -> Entry
    ensures value { result ≡ record { day = day; file = file; bytes = bytes } }
    ensures small { day < 2 ^ 32 }
{
    Entry { day, file, bytes }
}

/// Returns the parts and their entries in order of their days, and within a day as they are.
fn in_order(alloc: Global, placed: Vec<Placed<'_>>) -> Result<(Vec<Stored>, Vec<Entry>), AllocError>
    requires { All IsPlaced placed.items }
    ensures same { IfOk result (λ r. IsPermutation (map placed_part placed.entry.items) (map listed_of r.0.items)) }
    ensures by_day { IfOk result (λ r. (day : ℕ) → filter (is_day day) (map listed_of r.0.items)
        ≡ filter (is_day day) (map placed_part placed.entry.items)) }
    ensures sorted { IfOk result (λ r. IsNonDecreasingBy (λ part. part.day) (map listed_of r.0.items)) }
    ensures entries { IfOk result (λ r. r.1.items ≡ map entry_of (map listed_of r.0.items)) }
    ensures written { IfOk result (λ r. AllByRecursion CanBeWritten (map listed_of r.0.items)) }
{
    let placed = sorted(placed)?;
    let (parts, entries) = split(alloc, &placed)?;
    Ok((parts, entries))
}

/// Sorts the parts by their days, stably.
fn sorted(mut placed: Vec<Placed<'_>>) -> Result<Vec<Placed<'_>>, AllocError>
    ensures same { IfOk result (λ sorted. IsPermutation placed.entry.items sorted.items) }
    ensures by_day { IfOk result (λ sorted. (day : ℕ) → filter (is_day day) (map placed_part sorted.items)
        ≡ filter (is_day day) (map placed_part placed.entry.items)) }
    ensures sorted { IfOk result (λ sorted. IsNonDecreasingBy (λ part. part.entry.day) sorted.items) }
{
    placed.sort_by_key(|part| part.entry.day)?;
    Ok(placed)
}

/// Returns the parts and, apart, their entries.
fn split(alloc: Global, placed: &[Placed<'_>]) -> Result<(Vec<Stored>, Vec<Entry>), AllocError>
    ensures parts { IfOk result (λ r. map listed_of r.0.items ≡ map placed_part placed.now) }
    ensures entries { IfOk result (λ r. r.1.items ≡ map (λ part. part.entry) placed.now) }
{
    let mut parts = Vec::with_capacity(alloc, placed.len())?;
    let mut entries = Vec::with_capacity(alloc, placed.len())?;
    for i in 0..placed.len() {
        let Placed { entry, part } = placed[i];
        parts.push(Stored {
            day: entry.day,
            file: entry.file,
            part: Arc::try_clone(part)?,
        })?;
        entries.push(entry)?;
    }
    Ok((parts, entries))
}
