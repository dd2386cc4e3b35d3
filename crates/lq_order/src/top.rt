//! The `top` pipe.
ghost use Rattle.std.specs.Prelude.{◌≡◌, IfOk, List};
ghost use Rattle.lq_ast.specs.PipeView.{ranking};
ghost use Rattle.lq_ast.specs.Records.{Record};
ghost use Rattle.lq_ast.specs.Sorting as sorting;
ghost use Rattle.lq_order.specs.Groups.{IsNthGreatest};
ghost use Rattle.lq_order.specs.Tally.{Tallies};

use crate::kept::kept;
use crate::records::records_of;
use crate::tally::Tally;
use lq_ast::TopPipe;
use lq_tuple::{HashSeed, in_tuple_order};
use std::alloc::{AllocError, Global};
use vl_row::Recs;

/// Returns the `n` tuples of the values of the pipe's fields that most records have, each with their number: from the
/// most records down, and those with as many in tuple order. The seed of the table of tuples is the fixed one.
pub fn top_recs(alloc: Global, p: &TopPipe, r: Recs) -> Result<Recs, AllocError>
    ensures { IfOk result (λ records. records ≡ sorting.top (ranking p.now) r) }
{
    top_recs_seeded(alloc, HashSeed::fixed(), p, r)
}

/// Returns the same, with this seed of the table of tuples.
pub fn top_recs_seeded(
    alloc: Global,
    seed: HashSeed,
    p: &TopPipe,
    r: Recs,
) -> Result<Recs, AllocError>
    ensures { IfOk result (λ records. records ≡ sorting.top (ranking p.now) r) }
{
    Tally::of(alloc, seed, p.names.as_slice(), r)?.top(alloc, p)
}

impl<'p> Tally<'p> {
    /// Returns what the pipe makes of the records of the tally of its fields.
    pub fn top(self, alloc: Global, p: &TopPipe) -> Result<Recs, AllocError>
        ensures { IfOk result (λ made. (records : List Record) → Tallies self.entry (ranking p.now).names records
            → made ≡ sorting.top (ranking p.now) records) }
    {
        // Only the groups that can be among the first `n` are worth reading and putting in tuple order.
        let least = least_hits(alloc, self.hits.as_slice(), p.n)?;
        let groups = self.groups(alloc, least)?;
        drop(self.places);
        let mut keyed = in_tuple_order(alloc, groups.as_slice())?;
        keyed.sort_by(|a, b| b.group.kept.cmp(&a.group.kept))?;
        let kept = kept(keyed.as_slice(), 0, Some(p.n));
        records_of(alloc, self.names, true, kept)
    }
}

/// Returns the number that stands at the `n`-th place from the greatest down, and 0 where there are fewer.
fn least_hits(alloc: Global, hits: &[u64], n: u64) -> Result<u64, AllocError>
    ensures { IfOk result (λ least. IsNthGreatest n least hits.now) }
{
    let mut numbers = hits.to_vec(alloc)?;
    Ok(nth_greatest(numbers.as_mut_slice(), n as usize))
}

/// Returns the `n`-th greatest of these numbers, and 0 where there are fewer of them or `n` is 0.
fn nth_greatest(numbers: &mut [u64], n: usize) -> u64
    ensures { IsNthGreatest n result numbers.old }
{
    if n == 0 || numbers.len() < n {
        return 0;
    }
    let (_, nth, _) = numbers.select_nth_unstable(numbers.len() - n);
    *nth
}
