//! Lists that are written, and what a crash leaves of them.
ghost use Rattle.std.specs.Prelude.{◌≡◌, ◌+◌, ◌<◌, ◌≤◌, IfOk, OnOk, true};
ghost use Rattle.parts_list.specs.Listing.{is_list};
ghost use Rattle.parts_list_tests.specs.Awaits.{Awaits, entries_of};

use parts_list::{Entry, List, ListFault, read_list, write_list};
use std::alloc::{AllocError, Global};
use vl_row::Items;
use vl_vault::{MemoryVault, Vault};

/// How many images of each moment are tried.
const IMAGES: u64 = 200;

/// Returns the entries of the list of this generation.
fn entries_of(alloc: Global, generation: u64) -> Result<Items<Entry>, AllocError>
    ensures { IfOk result (λ entries. entries ≡ entries_of generation) }
{
    let first = Entry {
        day: 3,
        file: 7,
        bytes: generation,
    };
    let second = Entry {
        day: 19_000,
        file: 2,
        bytes: 1_000_000,
    };
    Ok(Items::of(Vec::from_slice(alloc, &[first, second])?))
}

/// Returns a list of this generation. Lists of other generations have another head and another entry.
fn list_of(alloc: Global, generation: u64) -> Result<List, AllocError>
    requires least { 1 ≤ generation }
    requires most { generation < 100 }
    ensures rules { IfOk result (λ list. is_list list ≡ true) }
    ensures generation { IfOk result (λ list. list.generation ≡ generation) }
{
    let entries = entries_of(alloc, generation)?;
    Ok(List {
        generation,
        front: generation,
        next_file: 9,
        entries,
    })
}

/// Returns a vault without a list, whose calls of these numbers fail.
fn new_vault(alloc: Global, failing: &[u64]) -> Result<MemoryVault, AllocError>
    ensures { IfOk result (λ vault. Awaits vault.past 1) }
{
    MemoryVault::of(alloc, failing)
}

/// Writes the list.
fn write_next(alloc: Global, vault: &mut MemoryVault, list: &List) -> Result<(), ListFault>
    requires awaits { Awaits vault.old.past list.now.generation }
    requires rules { is_list list.now ≡ true }
    ensures { OnOk result (Awaits vault.new.past (list.now.generation + 1)) }
{
    write_list(alloc, vault, list)?;
    Ok(())
}

/// Returns whether the vault has the list of this generation, or none at 0.
fn has_list(alloc: Global, vault: &mut MemoryVault, generation: u64) -> Result<bool, ListFault>
    requires { generation < 100 }
{
    let Some(found) = read_list(alloc, vault)? else {
        return Ok(generation == 0);
    };
    if generation == 0 {
        return Ok(false);
    }
    let wanted = list_of(alloc, generation)?;
    Ok(
        found.generation == wanted.generation
            && found.front == wanted.front
            && found.next_file == wanted.next_file
            && found.entries.as_slice() == wanted.entries.as_slice(),
    )
}

/// Returns the next of a row of numbers over the whole range.
fn next_choice(state: &mut u64) -> u64 {
    *state = state.wrapping_add(0x9e37_79b9_7f4a_7c15);
    let mixed = (*state ^ (*state >> 30)).wrapping_mul(0xbf58_476d_1ce4_e5b9);
    let mixed = (mixed ^ (mixed >> 27)).wrapping_mul(0x94d0_49bb_1331_11eb);
    mixed ^ (mixed >> 31)
}

/// How many images of a row of moments had the list from before, how many the new one, and how many neither.
#[derive(Drop)]
struct Counts {
    old: u64,
    new: u64,
    neither: u64,
}

/// Tries images of the moment after this call, while the list of this generation was written.
fn try_moment(
    alloc: Global,
    vault: &MemoryVault,
    call: u64,
    generation: u64,
    counts: &mut Counts,
) -> Result<(), ListFault>
    requires least { 1 ≤ generation }
    requires most { generation < 100 }
{
    let mut state = generation.wrapping_mul(1_000).wrapping_add(call);
    for _ in 0..IMAGES {
        if vault.calls() < call {
            return Err(ListFault::VaultFault);
        }
        let mut image = vault.image(call, next_choice(&mut state))?;
        if has_list(alloc, &mut image, generation)? {
            counts.new = counts.new.saturating_add(1);
        } else if has_list(alloc, &mut image, generation - 1)? {
            counts.old = counts.old.saturating_add(1);
        } else {
            counts.neither = counts.neither.saturating_add(1);
        }
    }
    Ok(())
}

/// Returns whether images of each moment from one call to another have the list from before or the new one, and both
/// lists are among them.
fn try_list(
    alloc: Global,
    vault: &MemoryVault,
    calls: (u64, u64),
    generation: u64,
) -> Result<bool, ListFault>
    requires least { 1 ≤ generation }
    requires most { generation < 100 }
{
    let mut counts = Counts {
        old: 0,
        new: 0,
        neither: 0,
    };
    for call in calls.0..calls.1 {
        try_moment(alloc, vault, call, generation, &mut counts)?;
    }
    Ok(counts.old > 1_000 && counts.new > 10 && counts.neither == 0)
}

/// Returns whether a crash leaves one of two lists, while three are written one after another.
fn leaves_one_of_two(alloc: Global) -> Result<bool, ListFault> {
    let mut vault = new_vault(alloc, &[])?;
    write_next(alloc, &mut vault, &list_of(alloc, 1)?)?;
    let one = vault.calls();
    write_next(alloc, &mut vault, &list_of(alloc, 2)?)?;
    let two = vault.calls();
    write_next(alloc, &mut vault, &list_of(alloc, 3)?)?;
    let three = vault.calls();
    let first = try_list(alloc, &vault, (0, one), 1)?;
    let second = try_list(alloc, &vault, (one, two), 2)?;
    let third = try_list(alloc, &vault, (two, three.saturating_add(1)), 3)?;
    Ok(first && second && third)
}

/// Returns the list of generation 1 that has one part.
fn one_part(alloc: Global) -> Result<List, AllocError>
    ensures rules { IfOk result (λ list. is_list list ≡ true) }
    ensures generation { IfOk result (λ list. list.generation ≡ 1) }
{
    let entry = Entry {
        day: 0,
        file: 2,
        bytes: 66,
    };
    Ok(List {
        generation: 1,
        front: 1,
        next_file: 3,
        entries: Items::of(Vec::from_slice(alloc, &[entry])?),
    })
}

/// The bytes of the slot of that list.
const SLOT: [u8; 57] = [
    1, 0x56, 0x4c, 0x4c, 0x49, 0x53, 0x54, 1, 0, // the gate, the magic and the version
    1, 0, 0, 0, 0, 0, 0, 0, // the generation
    1, 0, 0, 0, 0, 0, 0, 0, // the front
    3, 0, 0, 0, 0, 0, 0, 0, // the next file
    1, 0, 0, 0, // one part
    0, 0, 0, 0, 2, 0, 0, 0, 0, 0, 0, 0, 0x42, 0, 0, 0, 0, 0, 0, 0,
];

/// Returns whether a list is written as these bytes, and nothing to the other slot.
fn has_slot_bytes(alloc: Global) -> Result<bool, ListFault> {
    let mut vault = new_vault(alloc, &[])?;
    write_next(alloc, &mut vault, &one_part(alloc)?)?;
    let mut bytes = [9u8; 64];
    let count = vault.read(1, 0, &mut bytes)?;
    Ok(count == 57 && &bytes[..57] == SLOT.as_slice() && vault.length(0)? == 0)
}

/// Returns whether this is no list, or the list of generation 1.
fn is_none_or_first(list: Option<List>) -> bool {
    match list {
        None => true,
        Some(list) => list.generation == 1,
    }
}

/// Returns whether a list is not written while this call fails, and the vault and each image have none or the first.
fn is_fault(alloc: Global, failing: u64) -> Result<bool, ListFault> {
    let mut vault = new_vault(alloc, &[failing])?;
    let written = write_next(alloc, &mut vault, &list_of(alloc, 1)?);
    let refused = written == Err(ListFault::VaultFault);
    let counted = vault.faults() == 1 && vault.calls() == failing.saturating_add(1);
    // What the call that failed left is read from then on.
    let mut same = is_none_or_first(read_list(alloc, &mut vault)?);
    for choice in 0..400 {
        let mut image = vault.image(vault.calls(), choice)?;
        same = is_none_or_first(read_list(alloc, &mut image)?) && same;
    }
    Ok(refused && counted && same)
}

/// Returns whether the check of this name holds.
pub fn holds(alloc: Global, name: &str) -> Result<bool, ListFault> {
    if let Some(call) = name.strip_prefix("fault ") {
        return is_fault(alloc, call.parse::<u64>().unwrap_or(0));
    }
    match name {
        "leaves_one_of_two" => leaves_one_of_two(alloc),
        "has_slot_bytes" => has_slot_bytes(alloc),
        _ => Ok(false),
    }
}
