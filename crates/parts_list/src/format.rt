//! The bytes of a list in its slot.
ghost use Rattle.std.specs.Prelude.{◌≡◌, ◌^◌, ◌<◌, ◌++◌, OnOk, length};
ghost use Rattle.std.specs.Int.{w16, w64};
ghost use Rattle.std.specs.List.{flat_map};
ghost use Rattle.byte_format.specs.Format.{front, many};
ghost use Rattle.byte_format.specs.Gives.{Gives};
ghost use Rattle.byte_format.specs.Items.{number_that};
ghost use Rattle.parts_list.specs.Format.{body_of, entry, entry_bytes, is_version, slot_format, slot_writing};
ghost use Rattle.parts_list.specs.Format.{head_bytes, numbers_bytes, parts_bytes, these_bytes};
ghost use Rattle.parts_list.specs.Listing.{is_within};
ghost use Rattle.parts_list.specs.ReadAgain.{list-again};
ghost use Rattle.parts_list.specs.Steps.{counted_steps, entry_steps, listing_steps, slot_steps};

use crate::list::{Entry, List};
use crate::rules::{FIRST_FILE, LIMIT, is_list_of, is_within};
use byte_format::{Spelled, Stop, take_u16, take_u32, take_u64};
use std::alloc::{AllocError, Global};
use vl_row::Items;

/// What stands between the gate and the version.
const MAGIC: &[u8] = b"VLLIST";

/// The open gate and the magic.
pub(crate) const HEAD: &[u8] = b"\x01VLLIST";

/// The version of the format.
pub(crate) const VERSION: u16 = 1;

/// How many bytes an entry has.
const ENTRY_LEN: usize = 20;

impl Spelled for List {
    ghost use Rattle.parts_list.specs.declared.list.List.{List};

    /// The slot.
    type Context = u64;

    type Output = List;

    ghost Meaning = { List };

    ghost format = { λ slot. slot_format };

    ghost writing = { slot_writing };

    ghost meant = { λ list. list };

    ghost meaning = { λ list. list };

    ghost was_read = { λ slot list. Unit {0} };

    fn take(alloc: Global, _slot: u64, bytes: &[u8]) -> Result<(List, &[u8]), Stop> {
        take_slot(alloc, bytes)
    }

    fn make(self, alloc: Global, slot: u64) -> Result<Option<List>, AllocError> {
        let fits = is_list_of(alloc, slot, &self)?;
        if !fits {
            return Ok(None);
        }
        Ok(Some(self))
    }

    fn put(list: &List, _slot: u64, out: &mut Vec<u8>) -> Result<(), AllocError> {
        out.push(1)?;
        put_body(out, list)?;
        Ok(())
    }

    ghost again = { list-again };
}

/// Reads a slot: its gate, the magic, the version and the list.
#[tactic(auto, unfolding(crate::specs::Steps::slot_steps))]
fn take_slot(alloc: Global, bytes: &[u8]) -> Result<(List, &[u8]), Stop>
    ensures { Gives (λ x. (x.0, x.1.now)) result (slot_steps bytes.now) }
{
    let rest = take_exactly(bytes, &[1])?;
    let rest = take_exactly(rest, MAGIC)?;
    let rest = take_version(rest)?;
    let (list, rest) = take_list(alloc, rest)?;
    Ok((list, rest))
}

/// Reads the list after the version.
#[tactic(auto, unfolding(crate::specs::Steps::listing_steps))]
fn take_list(alloc: Global, bytes: &[u8]) -> Result<(List, &[u8]), Stop>
    ensures { Gives (λ x. (x.0, x.1.now)) result (listing_steps bytes.now) }
{
    let (generation, rest) = take_within(bytes, 1, LIMIT)?;
    let (front, rest) = take_within(rest, 0, LIMIT)?;
    let (next_file, rest) = take_within(rest, FIRST_FILE, LIMIT)?;
    let (entries, rest) = take_counted(alloc, next_file, rest)?;
    let list = List {
        generation,
        front,
        next_file,
        entries: Items::of(entries),
    };
    Ok((list, rest))
}

/// Reads the number of entries, and the entries.
#[tactic(auto, unfolding(crate::specs::Steps::counted_steps))]
fn take_counted(alloc: Global, next_file: u64, bytes: &[u8]) -> Result<(Vec<Entry>, &[u8]), Stop>
    ensures { Gives (λ x. (x.0.items, x.1.now)) result (counted_steps next_file bytes.now) }
{
    let (count, rest) = take_u32(bytes)?;
    let (entries, rest) = take_entries(alloc, next_file, count, rest)?;
    Ok((entries, rest))
}

/// Reads as many entries. Memory is taken only for those that the bytes hold.
fn take_entries(
    alloc: Global,
    next_file: u64,
    count: u32,
    bytes: &[u8],
) -> Result<(Vec<Entry>, &[u8]), Stop>
    ensures { Gives (λ x. (x.0.items, x.1.now)) result (front (many count (entry next_file)) bytes.now) }
{
    let most = (count as usize).min(bytes.len() / ENTRY_LEN);
    let mut entries = Vec::with_capacity(alloc, most)?;
    let mut rest = bytes;
    for _ in 0..count {
        let (entry, after) = take_entry(next_file, rest)?;
        entries.push(entry)?;
        rest = after;
    }
    Ok((entries, rest))
}

/// Reads one entry, whose file is below the next one.
fn take_entry(next_file: u64, bytes: &[u8]) -> Result<(Entry, &[u8]), Stop>
    ensures { Gives (λ x. (x.0, x.1.now)) result (front (entry next_file) bytes.now) }
{
    take_numbers(next_file, bytes)
}

/// Reads the three numbers of an entry.
#[tactic(auto, unfolding(crate::specs::Steps::entry_steps))]
fn take_numbers(next_file: u64, bytes: &[u8]) -> Result<(Entry, &[u8]), Stop>
    ensures { Gives (λ x. (x.0, x.1.now)) result (entry_steps next_file bytes.now) }
{
    let (day, rest) = take_u32(bytes)?;
    let (file, rest) = take_within(rest, FIRST_FILE, next_file)?;
    let (bytes, rest) = take_u64(rest)?;
    Ok((Entry { day, file, bytes }, rest))
}

/// Reads a number from the least up to below the end.
fn take_within(bytes: &[u8], least: u64, end: u64) -> Result<(u64, &[u8]), Stop>
    ensures { Gives (λ x. (x.0, x.1.now)) result (front (number_that w64 (is_within least end)) bytes.now) }
{
    let (number, rest) = take_u64(bytes)?;
    if !is_within(least, end, number) {
        return Err(Stop::Left(bytes.len()));
    }
    Ok((number, rest))
}

/// Reads the version.
fn take_version(bytes: &[u8]) -> Result<&[u8], Stop>
    ensures { Gives (λ x. (1, x.now)) result (front (number_that w16 is_version) bytes.now) }
{
    let (version, rest) = take_u16(bytes)?;
    if version != VERSION {
        return Err(Stop::Left(bytes.len()));
    }
    Ok(rest)
}

/// Reads one item of these bytes.
fn take_exactly<'a>(bytes: &'a [u8], item: &[u8]) -> Result<&'a [u8], Stop>
    ensures { Gives (λ x. (item.now, x.now)) result (front (these_bytes item.now) bytes.now) }
{
    if bytes.len() < item.len() {
        return Err(Stop::Left(bytes.len()));
    }
    let (found, rest) = bytes.split_at(item.len());
    if found != item {
        return Err(Stop::Left(bytes.len()));
    }
    Ok(rest)
}

/// Appends what stands after the gate of a slot that has the list.
#[tactic(auto, unfolding(crate::specs::Format::body_of))]
pub(crate) fn put_body(out: &mut Vec<u8>, list: &List) -> Result<(), AllocError>
    ensures { OnOk result (length list.now.entries < 2 ^ 32
        → out.new.items ≡ out.old.items ++ body_of list.now) }
{
    put_head(out)?;
    put_numbers(out, list)?;
    put_parts(out, list.entries.as_slice())?;
    Ok(())
}

/// Appends the magic and the version.
#[tactic(auto, unfolding(crate::specs::Format::head_bytes))]
fn put_head(out: &mut Vec<u8>) -> Result<(), AllocError>
    ensures { OnOk result (out.new.items ≡ out.old.items ++ head_bytes) }
{
    out.extend_from_slice(MAGIC)?;
    out.extend_from_slice(&VERSION.to_le_bytes())?;
    Ok(())
}

/// Appends the generation, the front and the next file.
#[tactic(auto, unfolding(crate::specs::Format::numbers_bytes))]
fn put_numbers(out: &mut Vec<u8>, list: &List) -> Result<(), AllocError>
    ensures { OnOk result (out.new.items ≡ out.old.items ++ numbers_bytes list.now) }
{
    out.extend_from_slice(&list.generation.to_le_bytes())?;
    out.extend_from_slice(&list.front.to_le_bytes())?;
    out.extend_from_slice(&list.next_file.to_le_bytes())?;
    Ok(())
}

/// Appends the number of entries, and the entries. If there are 2^32 or more, no list has them.
#[tactic(auto, unfolding(crate::specs::Format::parts_bytes))]
fn put_parts(out: &mut Vec<u8>, entries: &[Entry]) -> Result<(), AllocError>
    ensures { OnOk result (length entries.now < 2 ^ 32
        → out.new.items ≡ out.old.items ++ parts_bytes entries.now) }
{
    let count = entries.len().min(u32::MAX as usize) as u32;
    out.extend_from_slice(&count.to_le_bytes())?;
    put_entries(out, entries)?;
    Ok(())
}

/// Appends the spelling of each entry.
fn put_entries(out: &mut Vec<u8>, entries: &[Entry]) -> Result<(), AllocError>
    ensures { OnOk result (out.new.items ≡ out.old.items ++ flat_map entry_bytes entries.now) }
{
    for entry in entries {
        put_entry(out, entry)?;
    }
    Ok(())
}

#[tactic(auto, unfolding(crate::specs::Format::entry_bytes))]
fn put_entry(out: &mut Vec<u8>, entry: &Entry) -> Result<(), AllocError>
    ensures { OnOk result (out.new.items ≡ out.old.items ++ entry_bytes entry.now) }
{
    out.extend_from_slice(&entry.day.to_le_bytes())?;
    out.extend_from_slice(&entry.file.to_le_bytes())?;
    out.extend_from_slice(&entry.bytes.to_le_bytes())?;
    Ok(())
}
