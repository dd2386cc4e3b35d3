//! The plan of a round.
ghost use Rattle.std.specs.Prelude.{◌≡◌, ◌++◌, IfOk, IsTrue, map};
ghost use Rattle.std.specs.Arc.{arc_value};
ghost use Rattle.std.specs.List.{AllByRecursion, flat_map};
ghost use Rattle.block_format.specs.Rows.{are_numbered_apart};
ghost use Rattle.day_model.specs.Days.{AreOfTheirDays};
ghost use Rattle.part_store.specs.State.{AreInOrder, LiesInDay, day_part_of, listed_of};
ghost use Rattle.merge_plan.specs.Planned.{AreListed, JoinsDays, KeepsRows, rows_of_listed};

use crate::group::{grouped, merged};
use crate::pieces::pieces_by_day;
use part_file::Part;
use part_store::Stored;
use std::alloc::{AllocError, Global};
use std::sync::Arc;

/// The listed files that a round replaces, and the parts that it writes, each beside its day.
#[derive(Drop)]
pub struct Plan {
    pub old: Vec<u64>,
    pub new: Vec<(u32, Arc<Part>)>,
}

/// Plans the parts that a round writes. The new parts, one of each batch, oldest first, are split by days, and each
/// day's are merged with the day's youngest stored part, as far as they fit into one.
pub fn plan_merges(
    alloc: Global,
    stored: &[Stored],
    batches: &[Arc<Part>],
) -> Result<Plan, AllocError>
    requires apart { IsTrue (are_numbered_apart (rows_of_listed (map listed_of stored.now)
        ++ flat_map arc_value batches.now)) }
    requires order { AreInOrder (map listed_of stored.now) }
    requires days { AllByRecursion LiesInDay (map listed_of stored.now) }
    ensures rows { IfOk result (λ plan. KeepsRows (map listed_of stored.now) (map arc_value batches.now)
        plan.old.items (map day_part_of plan.new.items)) }
    ensures days { IfOk result (λ plan. AreOfTheirDays (map day_part_of plan.new.items)) }
    ensures listed { IfOk result (λ plan. AreListed (map listed_of stored.now) plan.old.items) }
    ensures weights { IfOk result (λ plan. JoinsDays (map listed_of stored.now) (map arc_value batches.now)
        plan.old.items (map day_part_of plan.new.items)) }
{
    let pieces = pieces_by_day(alloc, batches)?;
    let groups = grouped(alloc, stored, pieces.as_slice())?;
    let new = merged(alloc, groups.jobs.as_slice())?;
    Ok(Plan {
        old: groups.files,
        new,
    })
}
