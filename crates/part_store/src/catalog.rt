//! The parts of a store and their list.
ghost use Rattle.std.specs.Prelude.{◌≡◌, ◌↔◌, ◌==◌, [], IsTrue, length, map};
ghost use Rattle.std.specs.List.{list_any};
ghost use Rattle.part_store.specs.State.{IsSpent, day_part_of, kept, listed_of};
ghost use Rattle.part_store.specs.Preparing.{IsWhole, state_of};

use crate::store::Stored;
use part_file::Part;
use parts_list::{Entry, List};
use std::alloc::Global;
use std::sync::Arc;
use vl_row::Items;

/// The last number of a list, and the last one of a file.
pub(crate) const LAST: u64 = i64::MAX as u64;

/// A list has fewer parts than this.
const PARTS_LIMIT: u64 = 1 << 32;

/// The parts of a store and their list.
#[derive(Drop)]
pub(crate) struct Catalog {
    pub(crate) parts: Vec<Stored>,
    /// The list of the parts, of generation 0 if none was written.
    pub(crate) list: List,
}

/// A part and its entry.
#[derive(Clone, Copy)]
pub(crate) struct Placed<'a> {
    pub(crate) entry: Entry,
    pub(crate) part: &'a Arc<Part>,
}

/// What replaces a catalog, and the bytes that are written for it.
#[derive(Drop)]
pub(crate) struct Prepared {
    pub(crate) catalog: Catalog,
    /// The bytes of the list.
    pub(crate) body: Vec<u8>,
    /// The bytes of each new file.
    pub(crate) files: Vec<Vec<u8>>,
}

impl Catalog {
    /// Returns the catalog of a store that has no batch.
    pub(crate) fn empty(alloc: Global) -> Catalog
        ensures whole { IsWhole result }
        ensures parts { result.parts.items ≡ [] }
        ensures numbers { (result.list.generation ≡ 0) × (result.list.front ≡ 0) × (result.list.next_file ≡ 2) }
    {
        Catalog {
            parts: Vec::new(alloc),
            list: List {
                generation: 0,
                front: 0,
                next_file: 2,
                entries: Items::of(Vec::new(alloc)),
            },
        }
    }

    /// Returns whether there is no number for another list or for all new parts, or the list would be too long.
    pub(crate) fn is_spent(&self, old: &[u64], new: &[(u32, Arc<Part>)]) -> bool
        requires { IsWhole self.now }
        ensures { IsTrue result ↔ IsSpent old.now (map day_part_of new.now) (state_of self.now) }
    {
        let count = new.len() as u64;
        let is_last = self.list.generation == LAST;
        let has_files = count <= LAST - self.list.next_file;
        let kept = kept_count(&self.parts, old);
        is_last || !has_files || PARTS_LIMIT <= kept.saturating_add(count)
    }
}

/// Returns how many parts are of other files than these.
fn kept_count(parts: &[Stored], old: &[u64]) -> u64
    ensures { result ≡ length (kept old.now (map listed_of parts.now)) }
{
    let mut count: u64 = 0;
    for stored in parts {
        count += !is_among(old, stored.file) as u64;
    }
    count
}

/// Returns whether this is one of the files.
pub(crate) fn is_among(files: &[u64], file: u64) -> bool
    ensures { result ≡ list_any (λ f. f == file) files.now }
{
    files.contains(&file)
}
