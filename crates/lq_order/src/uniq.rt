//! The `uniq` pipe.
ghost use Rattle.std.specs.Prelude.{◌≡◌, IfOk, List};
ghost use Rattle.lq_ast.specs.PipeView.{distinct};
ghost use Rattle.lq_ast.specs.Records.{Record};
ghost use Rattle.lq_ast.specs.Sorting as sorting;
ghost use Rattle.lq_order.specs.Tally.{Tallies};

use crate::kept::kept;
use crate::records::records_of;
use crate::tally::Tally;
use lq_ast::UniqPipe;
use lq_tuple::{HashSeed, in_tuple_order};
use std::alloc::{AllocError, Global};
use vl_row::Recs;

/// One record for each tuple of the values of the pipe's fields, in tuple order, without a tuple that is wholly empty.
/// With `hits` it says how many records have the tuple. No more than `limit` are kept. The seed of the table of tuples
/// is the fixed one.
pub fn uniq_recs(alloc: Global, p: &UniqPipe, r: Recs) -> Result<Recs, AllocError>
    ensures { IfOk result (λ records. records ≡ sorting.uniq (distinct p.now) r) }
{
    uniq_recs_seeded(alloc, HashSeed::fixed(), p, r)
}

/// Returns the same, with this seed of the table of tuples.
pub fn uniq_recs_seeded(
    alloc: Global,
    seed: HashSeed,
    p: &UniqPipe,
    r: Recs,
) -> Result<Recs, AllocError>
    ensures { IfOk result (λ records. records ≡ sorting.uniq (distinct p.now) r) }
{
    Tally::of(alloc, seed, p.names.as_slice(), r)?.uniq(alloc, p)
}

impl<'p> Tally<'p> {
    /// Returns what the pipe makes of the records of the tally of its fields.
    pub fn uniq(self, alloc: Global, p: &UniqPipe) -> Result<Recs, AllocError>
        ensures { IfOk result (λ made. (records : List Record) → Tallies self.entry (distinct p.now).names records
            → made ≡ sorting.uniq (distinct p.now) records) }
    {
        let groups = self.groups(alloc, 0)?;
        drop(self.places);
        let keyed = in_tuple_order(alloc, groups.as_slice())?;
        let kept = kept(keyed.as_slice(), 0, p.limit);
        records_of(alloc, self.names, p.hits, kept)
    }
}
