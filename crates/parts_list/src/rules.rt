//! The rules of a list.
ghost use Rattle.std.specs.Prelude.{◌≡◌, IfOk, map};
ghost use Rattle.std.specs.BTreeSet.{btree_set_len};
ghost use Rattle.std.specs.List.{list_all};
ghost use Rattle.std.specs.Ordering.{eq_by_cmp, nat_cmp};
ghost use Rattle.std.specs.Set.{distinct_count};
ghost use Rattle.parts_list.specs.Listing.{
  are_in_order,
  comes_before,
  have_distinct_files,
  is_entry,
  is_list_of,
  is_within,
};

use crate::list::{Entry, List};
use std::alloc::{AllocError, Global};
use std::collections::BTreeSet;

/// Numbers of lists, batches and files are below this.
pub(crate) const LIMIT: u64 = 1 << 63;

/// A list has fewer parts than this.
const PARTS_LIMIT: usize = 1 << 32;

/// The first file that a part can have.
pub(crate) const FIRST_FILE: u64 = 2;

/// Returns whether this is a list that the slot can have.
pub(crate) fn is_list_of(alloc: Global, slot: u64, list: &List) -> Result<bool, AllocError>
    ensures { IfOk result (λ is. is ≡ is_list_of slot list.now) }
{
    let entries = list.entries.as_slice();
    let distinct = have_distinct_files(alloc, entries)?;
    Ok(
        list.generation % 2 == slot
            && is_within(1, LIMIT, list.generation)
            && is_within(0, LIMIT, list.front)
            && is_within(FIRST_FILE, LIMIT, list.next_file)
            && entries.len() < PARTS_LIMIT
            && are_below(list.next_file, entries)
            && are_in_order(entries)
            && distinct,
    )
}

/// Returns whether the number is at least `least` and below `end`.
pub(crate) fn is_within(least: u64, end: u64, number: u64) -> bool
    ensures { result ≡ is_within least end number }
{
    least <= number && number < end
}

/// Returns whether the file of each entry is below the next one.
fn are_below(next_file: u64, entries: &[Entry]) -> bool
    ensures { result ≡ list_all (is_entry next_file) entries.now }
{
    entries.iter().all(|entry| is_entry(next_file, entry))
}

/// Returns whether the entry's file is below the next one.
fn is_entry(next_file: u64, entry: &Entry) -> bool
    ensures { result ≡ is_entry next_file entry.now }
{
    let Entry {
        day: _day,
        file,
        bytes: _bytes,
    } = *entry;
    is_within(FIRST_FILE, next_file, file)
}

/// Returns whether the entries are in order of day and file.
fn are_in_order(entries: &[Entry]) -> bool
    ensures { result ≡ are_in_order entries.now }
{
    let mut rest = entries;
    while let [first, after @ ..] = rest {
        if let [second, ..] = after {
            if !comes_before(first, second) {
                return false;
            }
        }
        rest = after;
    }
    true
}

/// Returns whether one entry comes before the other.
fn comes_before(one: &Entry, other: &Entry) -> bool
    ensures { result ≡ comes_before one.now other.now }
{
    one.day < other.day || one.day == other.day && one.file < other.file
}

/// Returns whether no two entries have the same file.
fn have_distinct_files(alloc: Global, entries: &[Entry]) -> Result<bool, AllocError>
    ensures { IfOk result (λ distinct. distinct ≡ have_distinct_files entries.now) }
{
    let files = files_of(alloc, entries)?;
    Ok(files.len() == entries.len())
}

/// Returns the files of the entries.
fn files_of(alloc: Global, entries: &[Entry]) -> Result<BTreeSet<u64>, AllocError>
    ensures { IfOk result (λ files.
        btree_set_len files ≡ distinct_count (eq_by_cmp nat_cmp) (map (λ entry. entry.file) entries.now)) }
{
    entries.iter().map(|entry| entry.file).collect(alloc)
}
