//! The groups of a tally.
ghost use Rattle.std.specs.Prelude.{◌≡◌, List, ℕ, IfOk, filter, length, map, nat_le, slice_index, zip};
ghost use Rattle.lq_ast.specs.Records.{Record};
ghost use Rattle.lq_ast.specs.Tuples.{Tuple};
ghost use Rattle.lq_tuple.specs.Counted.{HaveLength, tuple_text};
ghost use Rattle.lq_order.specs.Groups.{group_pair};
ghost use Rattle.lq_order.specs.Tally.{AreGroups, Tallies};

use crate::tally::Tally;
use lq_tuple::{Group, read_tuple};
use std::alloc::{AllocError, Global};

impl<'p> Tally<'p> {
    /// Returns the groups of this many records or more.
    pub(crate) fn groups(&self, alloc: Global, least: u64) -> Result<Vec<Group<u64>>, AllocError>
        ensures { IfOk result (λ groups. (names : List (List ℕ)) (records : List Record)
            → Tallies self.now names records → AreGroups names records least groups.items) }
    {
        let texts = self.places.texts(alloc)?;
        read_groups(
            alloc,
            texts.as_slice(),
            self.hits.as_slice(),
            self.names.len(),
            least,
        )
    }
}

/// Returns the groups of this many records or more, of tuples of this many values that have these texts and numbers.
fn read_groups(
    alloc: Global,
    texts: &[&str],
    hits: &[u64],
    width: usize,
    least: u64,
) -> Result<Vec<Group<u64>>, AllocError>
    ensures { IfOk result (λ groups. (tuples : List Tuple) → map (λ text. text.now) texts.now ≡ map tuple_text tuples
        → HaveLength width tuples → length hits.now ≡ length tuples
        → map group_pair groups.items ≡ filter (λ p. nat_le least p.1) (zip tuples hits.now)) }
{
    let mut groups = Vec::new(alloc);
    for (i, text) in texts.iter().enumerate() {
        let hits = number_at(hits, i);
        if hits >= least {
            let tuple = read_tuple(alloc, text, width)?;
            groups.push(Group { tuple, kept: hits })?;
        }
    }
    Ok(groups)
}

/// Returns the number at a place, and 0 where there is none.
fn number_at(numbers: &[u64], place: usize) -> u64
    ensures { result ≡ slice_index numbers.now place }
{
    numbers.get(place).copied().unwrap_or(0)
}
